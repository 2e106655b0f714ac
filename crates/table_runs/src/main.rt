// Runs `tables` and then `test` on each case of standard input, and prints the case's name and both answers on one line.
// The files `stdin` and `stdout` are written by tests/reference/tables.py, which was written from the document alone and
// says what a line means. Assumes nothing.
#![tactic(auto)]

mod calls;

fn main() {
    let mut text = [0; cases::MOST_TEXT];
    for case in cases::each(cases::read(&mut text)) {
        run(case);
    }
}

fn run(case: &[u8]) {
    print::text(cases::before(case, b':'));
    print::text(b":");
    calls::tables_and_test(case);
    print::text(b"\n");
}
