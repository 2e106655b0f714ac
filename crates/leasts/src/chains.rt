// Chains: for each nonterminal a short rule that names it, which is tried next where the nonterminal's least falls. So a chain of
// rules settles at once, in whatever order its rules stand. Whichever rules are tried, what is known of the leasts is kept, and a
// round counts its own turns alone; so of the rules that are noted it is said only that the grammar has them.
ghost use Rattle.leasts.specs.Noted.{NotedBelow};

use crate::rule::Rule;
use layout::reading::Reading;

// The most symbols of a rule that is taken for a link of a chain.
const FEW: usize = 4;

// A grammar's reading, and for each nonterminal the last short rule that names it.
#[derive(Drop)]
pub struct Chains<'a> {
    pub reading: &'a Reading<'a>,
    users: [Option<u16>; 128],
    ghost below: { NotedBelow reading.now.rules users },
}

impl<'a> Chains<'a> {
    ghost use Rattle.std.specs.Prelude.{◌≡◌, IfSome};

    pub fn of(reading: &'a Reading<'a>) -> Chains<'a>
        ensures { result.reading ≡ reading.entry }
    {
        let mut users = [None; 128];
        for number in 0..reading.rules {
            note(Rule::of(reading, number), &mut users);
        }
        Chains { reading, users }
    }

    // The rule to try next where a rule lowered the least of its left side.
    pub fn next(&self, rule: Rule) -> Option<Rule<'a>>
        ensures { IfSome result (λ next. next.reading ≡ self.now.reading) }
    {
        let number = self.users[usize::from(rule.left)]?;
        Some(Rule::of(self.reading, number))
    }
}

// Notes a rule for the nonterminals among its symbols, if those are few.
fn note(rule: Rule, users: &mut [Option<u16>; 128])
    ensures { NotedBelow rule.entry.reading.now.rules users.old → NotedBelow rule.entry.reading.now.rules users.new }
{
    if FEW < rule.symbols.len() {
        return;
    }
    for &s in rule.symbols {
        if s < rule.reading.nonterminals {
            users[usize::from(s)] = Some(rule.number);
        }
    }
}
