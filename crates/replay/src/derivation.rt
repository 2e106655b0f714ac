// Replaying a list of rule numbers from the start, without recursion: of the right side that is read, the index of the next
// symbol and how many symbols are left; the others wait on a stack, which holds at most one for each number of the list.
ghost use Rattle.std.specs.Prelude.{◌+◌, ◌≤◌, ◌<◌, length, get_or};
ghost use Rattle.grammar.specs.Words.{Grammar};
ghost use Rattle.layout.specs.Read.{ReadsAs};
ghost use Rattle.replay.specs.ReplaySteps.{words_of, NextRule, WithinBounds, Bounded, Turned, Ran};

use crate::forms::{Open, Rest};
use crate::rule_list::RuleList;
use answers::Refusal;

// Where the rule stands that the next number names; none where no number is left, or it names no rule for the next symbol.
fn next_rule(list: &RuleList, form: Open) -> Option<usize>
    requires { (0 < form.left) × (form.at + form.left ≤ length (words_of list.now)) }
    ensures { NextRule list.now form result }
{
    let reading = list.reading;
    let number = *list.numbers.get(form.next)?;
    if reading.rules <= number {
        return None;
    }
    let at = usize::from(reading.places[usize::from(number)]);
    if reading.words[at] != reading.words[form.at] {
        return None;
    }
    Some(at)
}

// Opens the next symbol, which is no token, or goes back to the innermost right side that waits: Some is what is open then. With
// nothing left it is None, and all numbers are to be used.
fn step(list: &RuleList, form: Open, stack: &mut [Rest]) -> Result<Option<Open>, Refusal>
    requires { WithinBounds list.now stack.old form }
    ensures bounded { Bounded list.now stack.old form result stack.new }
    ensures turned { (g : Grammar) → ReadsAs list.now.reading.now g →
        (0 < form.left → get_or (words_of list.now) form.at 0 < list.now.reading.now.nonterminals) →
        Turned g list.now stack.old form result stack.new }
{
    if 0 < form.left {
        let rule = next_rule(list, form).ok_or(Refusal::NoDerivation { place: form.next })?;
        return Ok(Some(form.open_rule(list.reading.words, rule, stack)));
    }
    if 0 < form.depth {
        return Ok(Some(form.above(stack)));
    }
    if form.next < list.numbers.len() {
        return Err(Refusal::NoDerivation { place: form.next });
    }
    Ok(None)
}

// Steps from the start, which is the word 2 and no token, to the end; tokens are passed after each step, and stored as far as there
// is room. Ok carries their number.
pub fn run(list: &RuleList, stack: &mut [Rest], sentence: &mut [u16]) -> Result<usize, Refusal>
    requires { length list.now.numbers.now ≤ length stack.old }
    ensures { (g : Grammar) → ReadsAs list.now.reading.now g →
        Ran g list.now.numbers.now sentence.old result sentence.new }
{
    let mut form = Open {
        at: 2,
        left: 1,
        depth: 0,
        next: 0,
        tokens: 0,
    };
    // Taken out of the reading once: a compiler that can't tell what is stored from it reads it again at each step.
    let words = list.reading.words;
    let nonterminals = list.reading.nonterminals;
    while let Some(more) = step(list, form, stack)? {
        form = more.pass_tokens(words, nonterminals, sentence);
    }
    Ok(form.tokens)
}
