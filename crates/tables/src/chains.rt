// Chains: where the context of a nonterminal falls, a rule of it may lower another by it, and is tried next. So a chain of rules
// settles at once, in whatever order its rules stand. Whichever rules are tried, what is known of the contexts is kept, and a round
// counts its own turns alone; so of the rules that are noted it is said only that the grammar has them.
// leasts has chains of its own: there rules are noted by their symbols, here by their left sides, and each goes on by another.
ghost use Rattle.leasts.specs.Noted.{NotedBelow};

use leasts::FoundLeasts;

// The most symbols of a rule that is taken for a link of a chain.
const FEW: usize = 4;

// A grammar's leasts, and for each nonterminal the last rule of it, where it has one.
#[derive(Drop)]
pub struct Chains<'a> {
    pub found: &'a FoundLeasts<'a>,
    owned: [Option<u16>; 128],
    ghost below: { NotedBelow found.now.reading.rules owned },
}

impl<'a> Chains<'a> {
    ghost use Rattle.std.specs.Prelude.{◌≡◌, ◌<◌, IfSome};

    pub fn of(found: &'a FoundLeasts<'a>) -> Chains<'a>
        ensures { result.found ≡ found.entry }
    {
        let mut owned = [None; 128];
        for r in 0..found.reading.rules {
            owned[usize::from(found.reading.left(r))] = Some(r);
        }
        Chains { found, owned }
    }

    // The rule to try after rule r: that noted for the last nonterminal of its few symbols.
    pub fn next(&self, r: u16) -> Option<u16>
        ensures { IfSome result (λ next. next < self.now.found.now.reading.rules) }
    {
        let reading = &self.found.reading;
        let a = link(reading.right(r), reading.nonterminals)?;
        self.owned.get(usize::from(a)).copied().flatten()
    }
}

// The last nonterminal of few symbols.
fn link(symbols: &[u16], n: u16) -> Option<u16> {
    if FEW < symbols.len() {
        return None;
    }
    symbols.iter().rev().copied().find(|&s| s < n)
}
