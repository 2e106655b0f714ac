// The shortest-tree tables of a grammar: `tables` works one out from the leasts, by plain rounds over all rules. What the words of
// a table mean is crate entries' specs/Table; what the call answers is specs/Promise. Whether a lent table is a grammar's is asked
// of crate table_test.
#![tactic(auto)]

mod build;
mod chains;
mod choices;
mod contexts;
mod fill;

ghost use Rattle.std.specs.Prelude.{◌≡◌};
ghost use Rattle.tables.specs.Promise.{Tables};

use answers::Refusal;

// What `tables` answers: the number of words written, or the refusal's number and place.
// Document 01 names this form: an enum for each call family, with a refusal's number and place.
#[derive(Clone, Copy, Debug, PartialEq, Eq)]
pub enum TableAnswer {
    Done(usize),
    Refused { number: u16, place: usize },
}

// Replay and packed have the same impl: document 01 names an enum for each call family.
impl From<Result<usize, Refusal>> for TableAnswer {
    ghost use Rattle.tables.specs.Answers.{told};

    ghost from_gives = { λ outcome answer. answer ≡ told outcome };

    fn from(outcome: Result<usize, Refusal>) -> TableAnswer {
        match outcome {
            Ok(length) => TableAnswer::Done(length),
            Err(refusal) => TableAnswer::Refused {
                number: refusal.number(),
                place: refusal.place(),
            },
        }
    }
}

// Writes the table of the grammar that the words are into the front of table. Done carries how many words were written.
pub fn tables(words: &[u16], table: &mut [u16]) -> TableAnswer
    ensures { Tables words.now table.old result table.new }
{
    TableAnswer::from(build::worked_out(words, table))
}
