// Whole nights: `next` from clear marks until it answers something else than Next, with the table that `tables` writes. Each
// sentence takes a line: target, tokens, rules, and whether the replay of the rules gives the tokens again. Assumes nothing.
use crate::buffers;
use crate::buffers::{MOST_NUMBERS, MOST_TABLE, MOST_WORDS};
use cases::UNTOUCHED;
use handout::NextAnswer;
use replay::ReplayAnswer;

const MOST_RULES: usize = 256;

pub fn night(case: &[u8]) {
    let mut words = [0; MOST_WORDS];
    let words = cases::numbers(cases::given(case), &mut words);
    let mut table = [UNTOUCHED; MOST_TABLE];
    tables::tables(words, &mut table);
    let mut marks = [0; MOST_RULES];
    let sentences = hand_out_all(words, &table, &mut marks);
    print::text(b", sentences");
    print::number(sentences);
    print::text(b", marks");
    print::number(used(&marks));
}

// Hands out sentences as long as there are any; one more than there can be rules would be a mistake. The answer is how many.
fn hand_out_all(words: &[u16], table: &[u16], marks: &mut [u8]) -> usize {
    for sentences in 0..=MOST_RULES {
        print::text(b"\n");
        if !hand_out(words, table, marks) {
            return sentences;
        }
    }
    MOST_RULES + 1
}

// Whether a sentence was handed out.
fn hand_out(words: &[u16], table: &[u16], marks: &mut [u8]) -> bool {
    let mut sentence = [UNTOUCHED; MOST_NUMBERS];
    let mut derivation = [UNTOUCHED; MOST_NUMBERS];
    match handout::next(words, table, marks, &mut sentence, &mut derivation) {
        NextAnswer::Next {
            target,
            tokens,
            rules,
        } => {
            print::number(target);
            let derivation = cases::front(&derivation, rules);
            buffers::print_list(cases::front(&sentence, tokens));
            buffers::print_list(derivation);
            print_again(words, derivation, &sentence);
            true
        }
        NextAnswer::Finished => {
            print::text(b" finished");
            false
        }
        NextAnswer::Refused { number, place } => {
            print::refused(number, place);
            false
        }
    }
}

// Whether the replay of a derivation leaves the same in a buffer as `next` did.
fn print_again(words: &[u16], derivation: &[u16], sentence: &[u16]) {
    let mut again = [UNTOUCHED; MOST_NUMBERS];
    match replay::replay(words, derivation, &mut again) {
        ReplayAnswer::Done(_) => {
            if again.as_slice() == sentence {
                print::text(b" again");
            } else {
                print::text(b" another");
            }
        }
        ReplayAnswer::Refused { number, place } => print::refused(number, place),
    }
}

// How many marks are 1.
fn used(marks: &[u8]) -> usize {
    marks.iter().filter(|mark| **mark == 1).count()
}
