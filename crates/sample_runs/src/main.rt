// Runs document 01's sample rows that are not marked P: `tables` of each row's words, and a line with the answer. The file
// `stdout` has what the document says of them. (Those marked P are proved: crates/samples.) Words are written as crates/cases
// reads them: 3*7 is 7 7 7, 3+7 is 7 8 9, and 4&7 is 0 7 0 8. Assumes nothing.
#![tactic(auto)]

use tables::TableAnswer;

// More words than any of these grammars has, and than its table.
const MOST: usize = 1000;

fn main() {
    // "128 and 129 nonterminals": 0 gives all the others, in four rules, and each of them gives nothing. N is the word 0.
    layout(
        b"128 nonterminals",
        b"128 0 0, 0 32 32+1, 0 32 32+33, 0 32 32+65, 0 31 31+97, 1 252&2 0",
    );
    layout(
        b"129 nonterminals",
        b"129 0 0, 0 32 32+1, 0 32 32+33, 0 32 32+65, 0 32 32+97, 1 254&2 0",
    );
    // "k of 32 and 33": the count of the first rule is the word 4.
    layout(b"k of 32", b"1 1 0, 0 32 32*1");
    layout(b"k of 33", b"1 1 0, 0 33 33*1");
    // "256 and 257 rules": 0 gives nothing, two words a rule. "a 257th rule is faulted at its left side", the word 3 + 2 * 256.
    layout(b"256 rules", b"1 0 0, 512*0");
    layout(b"257 rules", b"1 0 0, 514*0");
    // "X0 gives one token, each Xi gives X(i-1) twice, start X10 (rule 0)"; "the same with start X11 (rule 0)"
    totals(
        b"start X10",
        b"11 1 10, \
          10 2 9 9, 9 2 8 8, 8 2 7 7, 7 2 6 6, 6 2 5 5, 5 2 4 4, 4 2 3 3, 3 2 2 2, 2 2 1 1, 1 2 0 0, 0 1 11",
    );
    totals(
        b"start X11",
        b"12 1 11, 11 2 10 10, \
          10 2 9 9, 9 2 8 8, 8 2 7 7, 7 2 6 6, 6 2 5 5, 5 2 4 4, 4 2 3 3, 3 2 2 2, 2 2 1 1, 1 2 0 0, 0 1 12",
    );
    // "rule 0, start gives X10 X8 X6 X4 X2 X1 and three tokens; with four"
    totals(
        b"X10 X8 X6 X4 X2 X1 and three tokens",
        b"12 1 11, 11 9 10 8 6 4 2 1 3*12, \
          10 2 9 9, 9 2 8 8, 8 2 7 7, 7 2 6 6, 6 2 5 5, 5 2 4 4, 4 2 3 3, 3 2 2 2, 2 2 1 1, 1 2 0 0, 0 1 12",
    );
    totals(
        b"X10 X8 X6 X4 X2 X1 and four tokens",
        b"12 1 11, 11 10 10 8 6 4 2 1 4*12, \
          10 2 9 9, 9 2 8 8, 8 2 7 7, 7 2 6 6, 6 2 5 5, 5 2 4 4, 4 2 3 3, 3 2 2 2, 2 2 1 1, 1 2 0 0, 0 1 12",
    );
}

// Whether the layout of these words is accepted. No later refusal meets them: each nonterminal has a tree and is reached, and
// totals are small.
fn layout(name: &[u8], text: &[u8]) {
    run(name, text, |_, _| print::text(b": layout accepted"));
}

// What the totals of these words are.
fn totals(name: &[u8], text: &[u8]) {
    run(name, text, print_totals);
}

// Makes the table of these words, and prints what is to be told of both, or the refusal.
fn run<F: Fn(&[u16], &[u16])>(name: &[u8], text: &[u8], tell: F)
    requires { F.IsAlwaysCallable tell }
{
    let mut words = [0; MOST];
    let words = cases::numbers(text, &mut words);
    let mut table = [0; MOST];
    let answer = tables::tables(words, &mut table);
    print::text(name);
    match answer {
        TableAnswer::Done(length) => tell(words, cases::front(&table, length)),
        TableAnswer::Refused { number, place } => print_refused(number, place),
    }
    print::text(b"\n");
}

fn print_refused(number: u16, place: usize) {
    print::text(b":");
    print::word(number);
    print::text(b" at");
    print::number(place);
}

// Whether the totals are all one number: they are the table's last words, after the entries of each nonterminal.
fn print_totals(words: &[u16], table: &[u16]) {
    let from = entries::length(words.first().copied().unwrap_or(0), 0);
    let Some(total) = table.get(from) else {
        print::text(b": no totals");
        return;
    };
    if cases::every(table, from, *total) {
        print::text(b": every total");
        print::word(*total);
    } else {
        print::text(b": totals differ");
    }
}
