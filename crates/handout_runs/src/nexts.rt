// Single calls of `next`. Assumes nothing.
use crate::buffers;
use crate::buffers::{MOST_NUMBERS, MOST_TABLE, MOST_WORDS};
use cases::UNTOUCHED;
use handout::NextAnswer;

// More marks than there are rules.
const MOST_MARKS: usize = 300;

// Lends buffers of so many tokens and so many rules as the case begins with.
pub fn next(case: &[u8]) {
    let mut words = [0; MOST_WORDS];
    let words = cases::numbers(cases::given(case), &mut words);
    let mut table = [0; MOST_TABLE];
    let table = cases::numbers(cases::before(cases::wanted(case), b';'), &mut table);
    let mut marks = [0; MOST_MARKS];
    let marks = cases::octets(cases::from(case, b';'), &mut marks);
    let mut rooms = [0; 2];
    cases::numbers(cases::before(case, b':'), &mut rooms);
    let [tokens, rules] = rooms;
    let mut sentence = [UNTOUCHED; MOST_NUMBERS];
    let mut derivation = [UNTOUCHED; MOST_NUMBERS];
    let answer = handout::next(
        words,
        table,
        marks,
        cases::front_mut(&mut sentence, usize::from(tokens)),
        cases::front_mut(&mut derivation, usize::from(rules)),
    );
    print_answer(answer, &sentence, &derivation);
    print::text(b", marks");
    print_octets(marks);
}

// The answer, what was written, and whether the buffers are kept past that.
fn print_answer(answer: NextAnswer, sentence: &[u16], derivation: &[u16]) {
    let (tokens, rules) = match answer {
        NextAnswer::Next {
            target,
            tokens,
            rules,
        } => {
            print::text(b" next");
            print::number(target);
            buffers::print_list(cases::front(sentence, tokens));
            buffers::print_list(cases::front(derivation, rules));
            (tokens, rules)
        }
        NextAnswer::Finished => {
            print::text(b" finished");
            (0, 0)
        }
        NextAnswer::Refused { number, place } => {
            print::refused(number, place);
            (0, 0)
        }
    };
    print::kept(cases::untouched(sentence, tokens) && cases::untouched(derivation, rules));
}

fn print_octets(octets: &[u8]) {
    for octet in octets {
        print::number(usize::from(*octet));
    }
}
