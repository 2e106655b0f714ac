// The leasts, by rounds over all rules until nothing falls.
ghost use Rattle.std.specs.Prelude.{◌<◌};
ghost use Rattle.std.specs.Int.{from_bool};
ghost use Rattle.grammar.specs.Words.{Grammar};
ghost use Rattle.layout.specs.Read.{ReadsAs};
ghost use Rattle.figures.specs.Weights.{Fallen};
ghost use Rattle.leasts.specs.LeastSteps.{LeastsSound};
ghost use Rattle.leasts.specs.LeastRounding.{Turn, TurnOf, Round, Rounded, Rested};

use crate::chains::Chains;
use crate::rule::Rule;
use crate::sizes::{rule_size, sizes_settle};
use figures::{cap, in_turn, lower};
use layout::reading::Reading;

// Lowers the least of a rule's left side to the rule's size; whether it fell. A symbol's size is 1 at least, so that a rule with
// too many symbols need not be summed.
#[tactic(auto, using(crate::proofs::LeastTurns::turns))]
fn lower_least(rule: Rule, leasts: &mut [u16; 128]) -> bool
    ensures fallen { Fallen leasts.old leasts.new (from_bool result) }
    ensures turn { TurnOf rule.entry leasts.old leasts.new result }
{
    let left = usize::from(rule.left);
    if usize::from(leasts[left]) <= rule.symbols.len() + 1 {
        return false;
    }
    let Some(size) = rule_size(rule, leasts) else {
        return false;
    };
    0 < lower(leasts, left, cap(size))
}

// The turn of a rule: where the least of its left side falls, the rule noted for that is tried next, and so on. Whether the
// first fell.
fn least_turn(chains: &Chains, first: u16, leasts: &mut [u16; 128]) -> bool
    requires { first < chains.now.reading.now.rules }
    ensures fallen { Fallen leasts.old leasts.new (from_bool result) }
    ensures turn { (g : Grammar) → ReadsAs chains.now.reading.now g → Turn g first leasts.old leasts.new result }
{
    let rule = Rule::of(chains.reading, first);
    if !lower_least(rule, leasts) {
        return false;
    }
    let mut next = chains.next(rule);
    while let Some(rule) = next {
        if !lower_least(rule, leasts) {
            break;
        }
        next = chains.next(rule);
    }
    true
}

// A round over all rules, from the first to the last or back; how many figures fell.
fn least_round(chains: &Chains, up: bool, leasts: &mut [u16; 128]) -> usize
    ensures fallen { Fallen leasts.old leasts.new result }
    ensures round { (g : Grammar) → ReadsAs chains.now.reading.now g →
        Round g chains.now.reading.now.rules leasts.old leasts.new result }
{
    let rules = usize::from(chains.reading.rules);
    let mut fell = 0;
    for i in 0..rules {
        if least_turn(chains, in_turn(i, rules, up) as u16, leasts) {
            fell += 1;
        }
    }
    fell
}

// Rounds up and down in turn, after one down in which so many figures fell, until one changes nothing.
fn more_rounds(chains: &Chains, mut fell: usize, leasts: &mut [u16; 128])
    ensures { (g : Grammar) → ReadsAs chains.now.reading.now g →
        Rounded g chains.now.reading.now.rules leasts.old fell →
        Rounded g chains.now.reading.now.rules leasts.new 0 }
{
    let mut up = true;
    while 0 < fell {
        fell = least_round(chains, up, leasts);
        up = !up;
    }
}

// Rounds until one changes nothing, and the sizes of the rules. Where the first round leaves nothing to lower, the sizes say so,
// and there is no second.
pub fn least_rounds(reading: &Reading, leasts: &mut [u16; 128], sizes: &mut [u32; 256])
    ensures { (g : Grammar) → ReadsAs reading.now g →
        LeastsSound g leasts.old → Rested g leasts.new sizes.old sizes.new }
{
    let chains = Chains::of(reading);
    let fell = least_round(&chains, false, leasts);
    if !sizes_settle(reading, leasts, sizes) {
        more_rounds(&chains, fell, leasts);
        sizes_settle(reading, leasts, sizes);
    }
}
