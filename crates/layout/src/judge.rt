// The judge of grammar words: whether words are a grammar, and which, or where they break. One pass from the left, by the
// order in which the words are read (`head`), which also notes where each rule stands.
ghost use Rattle.std.specs.Prelude.{◌≡◌};
ghost use Rattle.grammar.specs.Words.{layout};
ghost use Rattle.layout.specs.Judge.{answer_of, placed_of};

use crate::head::note;
use crate::reading::Reading;
use crate::words::word;
use answers::Refusal;

// What a grammar has: N, T, the start and the number of rules, of the width that `judge` always answered; a `Reading` has them as words.
#[derive(Clone, Copy, Debug, PartialEq, Eq)]
pub struct Shape {
    pub nonterminals: usize,
    pub terminals: usize,
    pub start: usize,
    pub rules: usize,
}

// The same, and where each rule stands: the index of its left side, by number, and 0 past the rules. It holds on to no words.
#[derive(Clone, Copy)]
pub struct Placed {
    pub shape: Shape,
    pub places: [u16; 256],
}

// Words that are no grammar: the place of the first fault.
#[derive(Clone, Copy, Debug, PartialEq, Eq)]
pub struct Fault {
    pub place: usize,
}

impl From<Fault> for Refusal {
    ghost use Rattle.answers.specs.declared.Refusal.TheVariants.{BrokenLayout};

    ghost from_gives = { λ fault refusal. refusal ≡ BrokenLayout fault.place };

    fn from(fault: Fault) -> Refusal {
        Refusal::BrokenLayout { place: fault.place }
    }
}

pub fn judge(words: &[u16]) -> Result<Shape, Fault>
    ensures { result ≡ answer_of (layout words.now) }
{
    let rules = note(words, &mut [0; 256])?;
    Ok(Shape {
        nonterminals: word(words, 0),
        terminals: word(words, 1),
        start: word(words, 2),
        rules,
    })
}

// The same, with where the rules stand.
pub fn read(words: &[u16]) -> Result<Placed, Fault>
    ensures { result ≡ placed_of (layout words.now) }
{
    Ok(Reading::of(words)?.placed())
}
