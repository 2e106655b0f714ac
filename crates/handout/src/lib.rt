// Handing out sentences: `next`. What it promises is specs/Next, with its answers in specs/Answers, and when it gives each answer
// specs/Given; what calls of it come to from clear marks on is specs/Night.
#![tactic(auto)]

mod answer;
mod lister;
mod listing;
mod tabled;
mod tree_lister;

ghost use Rattle.handout.specs.Next.{Lent, NextPromise};

use answers::Refusal;
use tabled::Tabled;

// What `next` answers: the target and both lengths written, or that no rule is unused, or the refusal's number and place.
// Document 01 names this form: an enum for each call family, with a refusal's number and place.
#[derive(Clone, Copy, Debug, PartialEq, Eq)]
pub enum NextAnswer {
    Next {
        target: usize,
        tokens: usize,
        rules: usize,
    },
    Finished,
    Refused {
        number: u16,
        place: usize,
    },
}

impl From<Refusal> for NextAnswer {
    ghost use Rattle.std.specs.Prelude.{◌≡◌};
    ghost use Rattle.handout.specs.Answers.{told};

    ghost from_gives = { λ refusal answer. answer ≡ told refusal };

    fn from(refusal: Refusal) -> NextAnswer {
        NextAnswer::Refused {
            number: refusal.number(),
            place: refusal.place(),
        }
    }
}

// Hands out the sentence of the lowest unused rule and its derivation, into the fronts of sentence and derivation, and sets the
// marks of the rules in the derivation.
pub fn next(
    words: &[u16],
    table: &[u16],
    marks: &mut [u8],
    sentence: &mut [u16],
    derivation: &mut [u16],
) -> NextAnswer
    ensures { NextPromise words.now table.now
        (record { marks = marks.old; tokens = sentence.old; rules = derivation.old }) result
        (record { marks = marks.new; tokens = sentence.new; rules = derivation.new }) }
{
    let Some(reading) = table_test::tested_reading(words, table) else {
        return NextAnswer::from(answer::without_table(words));
    };
    let tabled = Tabled {
        reading: &reading,
        table,
    };
    match answer::decide(&tabled, marks, sentence, derivation) {
        Ok(Some(target)) => answer::write_out(&tabled, target, marks, sentence, derivation),
        Ok(None) => NextAnswer::Finished,
        Err(refusal) => NextAnswer::from(refusal),
    }
}
