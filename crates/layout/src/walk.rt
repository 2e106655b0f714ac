// A walk over the rules of grammar words: the words it reads and its place are kept together. It is an iterator over the rules.
// The work is in `rule_from`, over plain words.
ghost use Rattle.std.specs.Prelude.{◌≡◌, ◌-◌};
ghost use Rattle.std.specs.Iterator.{at_most};
ghost use Rattle.layout.specs.Walk.{place, place_in, walk_at, walk_start, step_at, taken_from};

use crate::words::word;

// Where the first rule stands: after N, T and the start.
pub const FIRST_RULE: usize = 3;

// The most rules that a grammar has.
pub const MOST_RULES: usize = 256;

// Where a rule stands in the words: its number, its left side, how many symbols it has, the index of the first and the index
// past the last.
#[derive(Clone, Copy, Debug, PartialEq, Eq)]
pub struct RuleSpan {
    pub number: usize,
    pub left: usize,
    pub count: usize,
    pub first: usize,
    pub end: usize,
}

// The words, and the index and the number of the rule that comes next.
#[derive(Clone, Copy)]
pub struct RuleWalk<'a> {
    words: &'a [u16],
    at: usize,
    number: usize,
}

impl<'a> RuleWalk<'a> {
    // The walk before the first rule.
    pub fn start(words: &'a [u16]) -> RuleWalk<'a>
        ensures { result ≡ walk_at words.entry walk_start }
    {
        RuleWalk {
            words,
            at: FIRST_RULE,
            number: 0,
        }
    }

    // The rule at the walk's place; none where no whole rule stands there, or 256 went before.
    pub fn stands_at(self) -> Option<RuleSpan>
        ensures { result ≡ step_at self.entry.words.now (place_in self.entry) }
    {
        rule_from(self.words, self.at, self.number)
    }
}

// Hands out the next rule and goes past it; at its end a walk stays.
impl<'a> Iterator for RuleWalk<'a> {
    type Item = RuleSpan;

    ghost next_gives = { λ before step after. (record { step = step; walk = after }) ≡ taken_from before };

    ghost remaining = { λ walk. at_most (256 - walk.number) };

    fn next(&mut self) -> Option<RuleSpan> {
        let span = self.stands_at()?;
        self.at = span.end;
        self.number += 1;
        Some(span)
    }
}

// The rule at a place, whoever has no walk; none where no whole rule stands there, or 256 went before.
pub fn rule_from(words: &[u16], at: usize, number: usize) -> Option<RuleSpan>
    ensures { result ≡ step_at words.now (place at number) }
{
    let len = words.len();
    if MOST_RULES <= number {
        return None;
    }
    if len < 2 {
        return None;
    }
    if len - 2 < at {
        return None;
    }
    let first = at + 2;
    let left = word(words, at);
    let count = word(words, at + 1);
    if len - first < count {
        return None;
    }
    Some(RuleSpan {
        number,
        left,
        count,
        first,
        end: first + count,
    })
}
