// Runs the judge of grammar words, or the walk over their rules, on each case of standard input, and prints the case and
// the answer on one line. The file `stdin` says how a case is written, and why its answer is what the file `stdout` has.
// Assumes nothing.
#![tactic(auto)]

mod calls;

fn main() {
    let mut text = [0; cases::MOST_TEXT];
    for case in cases::each(cases::read(&mut text)) {
        run(case);
    }
}

fn run(case: &[u8]) {
    print::text(case);
    print::text(b" ->");
    let mut words = [0; cases::MOST_SPELLED];
    let words = cases::numbers(cases::given(case), &mut words);
    match case {
        [b'w', ..] => calls::walk(words, cases::room(case)),
        _ => calls::judge(words),
    }
    print::text(b"\n");
}
