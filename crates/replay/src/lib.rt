// Replaying a derivation: `replay`. What it promises is specs/Replay. It reads no table.
#![tactic(auto)]

mod derivation;
mod forms;
mod rows;
mod rule_list;

ghost use Rattle.replay.specs.Answers.{told};
ghost use Rattle.replay.specs.Replay.{Replay};

use crate::rule_list::RuleList;
use answers::Refusal;
use layout::reading::Reading;

// What `replay` answers: the number of tokens written, or the refusal's number and place.
// Document 01 names this form: an enum for each call family, with a refusal's number and place.
#[derive(Clone, Copy, Debug, PartialEq, Eq)]
pub enum ReplayAnswer {
    Done(usize),
    Refused { number: u16, place: usize },
}

// The other families have the same: document 01 names an enum for each.
impl From<Result<usize, Refusal>> for ReplayAnswer {
    ghost use Rattle.std.specs.Prelude.{◌≡◌};

    ghost from_gives = { λ outcome answer. answer ≡ told outcome };

    fn from(outcome: Result<usize, Refusal>) -> ReplayAnswer {
        match outcome {
            Ok(written) => ReplayAnswer::Done(written),
            Err(refusal) => ReplayAnswer::Refused {
                number: refusal.number(),
                place: refusal.place(),
            },
        }
    }
}

// Writes the sentence of the leftmost derivation by these rule numbers, from the start, into the front of sentence. Done carries
// how many tokens were written.
pub fn replay(words: &[u16], list: &[u16], sentence: &mut [u16]) -> ReplayAnswer
    ensures { Replay words.now list.now sentence.old result sentence.new }
{
    ReplayAnswer::from(replayed(words, list, sentence))
}

// 4 and 12, and what follows.
fn replayed(words: &[u16], list: &[u16], sentence: &mut [u16]) -> Result<usize, Refusal>
    ensures { Replay words.now list.now sentence.old (told result) sentence.new }
{
    let reading = Reading::of(words)?;
    let list = RuleList::new(&reading, list)?;
    rows::of_list(&list, sentence)
}
