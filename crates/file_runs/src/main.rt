// Runs `unpack` and `pack` on each case of standard input, and prints the case and the answer on one line. The file
// `stdin` says how a case is written, and why its answer is what the file `stdout` has. Assumes nothing.
#![tactic(auto)]

mod calls;

fn main() {
    let mut text = [0; cases::MOST_TEXT];
    for case in cases::each(cases::read(&mut text)) {
        run(case);
    }
}

fn run(case: &[u8]) {
    print::text(case);
    print::text(b" ->");
    match case {
        [b'u', ..] => calls::unpack(case),
        [b'p', ..] => calls::pack(case),
        _ => print::text(b" neither unpack nor pack"),
    }
    print::text(b"\n");
}
