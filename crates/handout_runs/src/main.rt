// Runs `replay` and `next` on each case of standard input, and prints the case's name and what the call answered and left in
// the lent buffers. The files `stdin` and `stdout` are written by tests/reference/handout.py, which was written from the
// document alone and says what a line means. Assumes nothing.
#![tactic(auto)]

mod buffers;
mod nexts;
mod nights;
mod replays;

fn main() {
    let mut text = [0; cases::MOST_TEXT];
    for case in cases::each(cases::read(&mut text)) {
        run(case);
    }
}

// The first letter of a case tells the call: replay, next, or a whole night of next.
fn run(case: &[u8]) {
    print::text(cases::before(case, b':'));
    print::text(b":");
    match case {
        [b'r', ..] => replays::replay(case),
        [b'n', ..] => nexts::next(case),
        [b'w', ..] => nights::night(case),
        _ => print::text(b" unknown"),
    }
    print::text(b"\n");
}
