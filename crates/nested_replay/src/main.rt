// Replays 4,096 rules that nest in one another, one grammar with the nesting on the left and one with it on the right. Its own
// arrays are small, so that it also runs in a small stack: tests/small_stack. The file `stdout` is by hand: 4,095 uses of rule 0
// give a token each, and one of rule 1 gives nothing. Assumes nothing.
#![tactic(auto)]

use replay::ReplayAnswer;

const NUMBERS: usize = 4096;

const TOKEN: u16 = 1;

const UNTOUCHED: u16 = 50505;

fn main() {
    print::text(b"S gives S and a token, or nothing:");
    replay(&[1, 1, 0, 0, 2, 0, 1, 0, 0]);
    print::text(b"S gives a token and S, or nothing:");
    replay(&[1, 1, 0, 0, 2, 1, 0, 0, 0]);
}

fn replay(words: &[u16]) {
    let mut list = [0; NUMBERS];
    list[NUMBERS - 1] = 1;
    let mut sentence = [UNTOUCHED; NUMBERS];
    match replay::replay(words, &list, &mut sentence) {
        ReplayAnswer::Done(tokens) => print::done(tokens),
        ReplayAnswer::Refused { number, place } => print::refused(number, place),
    }
    print::text(b", tokens");
    print::number(count(&sentence, TOKEN));
    print::text(b", kept");
    print::number(count(&sentence, UNTOUCHED));
    print::text(b"\n");
}

// How many words are this one.
fn count(words: &[u16], this: u16) -> usize {
    words.iter().filter(|word| **word == this).count()
}
