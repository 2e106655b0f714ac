// The leasts of a grammar's nonterminals and the sizes of its rules by them, worked out by rounds over all rules. What the calls
// promise of any words is specs/Promise.
#![tactic(auto)]

mod chains;
mod rounds;
mod rule;
mod sizes;
#[cfg(test)]
mod tests;

ghost use Rattle.leasts.specs.Promise.{LeastsOf};

use crate::rounds::least_rounds;
use figures::NO_FIGURE;
use layout::judge::{Fault, Placed};
use layout::reading::Reading;

// What was read of words that are a grammar; its leasts, cut at 4,097, with NO_FIGURE for a nonterminal that has no tree and past
// the last; and the sizes of its rules, with 0 for a rule that names such a nonterminal and past the last.
// NO_FIGURE and 0, and no Option: the theorems no_figure_exactly and found_no_figure_exactly and the promise (SizeFigure) say them of
// the words.
#[derive(Drop)]
pub struct FoundLeasts<'a> {
    pub reading: Reading<'a>,
    pub leasts: [u16; 128],
    pub sizes: [u32; 256],
}

// The same by value: it holds on to no words.
#[derive(Drop)]
pub struct PlacedLeasts {
    pub placed: Placed,
    pub leasts: [u16; 128],
    pub sizes: [u32; 256],
}

impl<'a> FoundLeasts<'a> {
    ghost use Rattle.leasts.specs.Promise.{FoundOf};

    // Those of words that are a grammar; of others where they break.
    pub fn of(words: &'a [u16]) -> Result<FoundLeasts<'a>, Fault>
        ensures { FoundOf words.entry result }
    {
        let reading = Reading::of(words)?;
        let mut leasts = [NO_FIGURE; 128];
        let mut sizes = [0u32; 256];
        least_rounds(&reading, &mut leasts, &mut sizes);
        Ok(FoundLeasts {
            reading,
            leasts,
            sizes,
        })
    }
}

pub fn leasts(words: &[u16]) -> Result<PlacedLeasts, Fault>
    ensures { LeastsOf words.now result }
{
    let found = FoundLeasts::of(words)?;
    Ok(PlacedLeasts {
        placed: found.reading.placed(),
        leasts: found.leasts,
        sizes: found.sizes,
    })
}
