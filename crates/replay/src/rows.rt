// What `replay` answers of a list that is not too long: 11, 3, or the sentence. Tokens are kept aside until no refusal can come.
// How much room is cleared for that, and for the stack, goes by the list's length.
ghost use Rattle.std.specs.Prelude.{◌≤◌, length};
ghost use Rattle.replay.specs.Answers.{told};
ghost use Rattle.replay.specs.Replay.{Replay};
ghost use Rattle.replay.specs.ReplaySteps.{words_of};

use crate::derivation::run;
use crate::forms::Rest;
use crate::rule_list::{MOST_NUMBERS, RuleList};
use answers::Refusal;

// Shorter lists, for which less room is cleared.
const FEW_NUMBERS: usize = 64;

const SOME_NUMBERS: usize = 256;

// How many tokens are kept aside: for a short list, and for others, of which the sentence can be long.
const FEW_TOKENS: usize = 64;

const MANY_TOKENS: usize = 4096;

// With as much room as the list asks for.
pub fn of_list(list: &RuleList, sentence: &mut [u16]) -> Result<usize, Refusal>
    ensures { Replay (words_of list.now) list.now.numbers.now sentence.old (told result) sentence.new }
{
    if list.numbers.len() <= FEW_NUMBERS {
        return with_room::<FEW_NUMBERS, FEW_TOKENS>(list, sentence);
    }
    if list.numbers.len() <= SOME_NUMBERS {
        return with_room::<SOME_NUMBERS, MANY_TOKENS>(list, sentence);
    }
    with_room::<MOST_NUMBERS, MANY_TOKENS>(list, sentence)
}

// The tokens are kept aside until 11 and 3 are passed; a sentence that is longer than the room aside takes a second run.
fn with_room<const RESTS: usize, const TOKENS: usize>(
    list: &RuleList,
    sentence: &mut [u16],
) -> Result<usize, Refusal>
    requires enough { length list.now.numbers.now ≤ RESTS }
    requires little { (RESTS ≤ 4096) × (TOKENS ≤ 4096) }
    ensures { Replay (words_of list.now) list.now.numbers.now sentence.old (told result) sentence.new }
{
    let mut stack = [Rest::default(); RESTS];
    let mut aside = [0u16; TOKENS];
    let tokens = run(list, &mut stack, &mut aside)?;
    if sentence.len() < tokens {
        return Err(Refusal::TooShort { needed: tokens });
    }
    if aside.len() < tokens {
        return run(list, &mut stack, sentence);
    }
    sentence[..tokens].copy_from_slice(&aside[..tokens]);
    Ok(tokens)
}
