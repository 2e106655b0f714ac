// Single calls of `replay`. Assumes nothing.
use crate::buffers;
use crate::buffers::{MOST_NUMBERS, MOST_WORDS};
use cases::UNTOUCHED;
use replay::ReplayAnswer;

// More words than a replayed sentence has: 4,096 rules of 32 symbols.
const MOST_SENTENCE: usize = 131073;

pub fn replay(case: &[u8]) {
    let mut words = [0; MOST_WORDS];
    let words = cases::numbers(cases::given(case), &mut words);
    let mut list = [0; MOST_NUMBERS];
    let list = cases::numbers(cases::wanted(case), &mut list);
    let mut sentence = [UNTOUCHED; MOST_SENTENCE];
    run(words, list, cases::front_mut(&mut sentence, room(case)));
}

// The room is written in two numbers, thousands and the rest.
fn room(case: &[u8]) -> usize {
    let mut numbers = [0; 2];
    cases::numbers(cases::before(case, b':'), &mut numbers);
    let [thousands, rest] = numbers;
    usize::from(thousands) * 1000 + usize::from(rest)
}

fn run(words: &[u16], list: &[u16], sentence: &mut [u16]) {
    match replay::replay(words, list, sentence) {
        ReplayAnswer::Done(tokens) => {
            print::text(b" done");
            buffers::print_list(cases::front(sentence, tokens));
            print::kept(cases::untouched(sentence, tokens));
        }
        ReplayAnswer::Refused { number, place } => {
            print::refused(number, place);
            print::kept(cases::untouched(sentence, 0));
        }
    }
}
