// The size of a rule by the leasts so far, and the sizes of all rules, noted.
ghost use Rattle.grammar.specs.Words.{Grammar};
ghost use Rattle.layout.specs.Read.{ReadsAs};
ghost use Rattle.leasts.specs.LeastSteps.{Sized, SizeNoted, Settled, KeptFrom};

use crate::rule::Rule;
use figures::{NO_FIGURE, cap};
use layout::reading::Reading;

// What a rule comes to; none where a symbol of it has no least yet. The figures are added before any cut.
#[tactic(auto, using(crate::proofs::RuleSummed::sums))]
pub fn rule_size(rule: Rule, leasts: &[u16; 128]) -> Option<usize>
    ensures { Sized rule.entry leasts.now result }
{
    let mut sum: usize = 1;
    for &s in rule.symbols {
        if s < rule.reading.nonterminals {
            let size = leasts[usize::from(s)];
            if size == NO_FIGURE {
                return None;
            }
            sum += usize::from(size);
        } else {
            sum += 1;
        }
    }
    Some(sum)
}

// Notes the size of a rule, and 0 for none; whether it is not below the least of the rule's left side.
#[tactic(auto, using(crate::proofs::RuleSizes::notes))]
fn size_settles(rule: Rule, leasts: &[u16; 128], sizes: &mut [u32; 256]) -> bool
    ensures { SizeNoted rule.entry leasts.now sizes.old sizes.new result }
{
    let number = usize::from(rule.number);
    let Some(size) = rule_size(rule, leasts) else {
        sizes[number] = 0;
        return true;
    };
    sizes[number] = size as u32;
    leasts[usize::from(rule.left)] <= cap(size)
}

// The size of each rule by the leasts; whether none is below the least of its left side.
pub fn sizes_settle<'a>(
    reading: &'a Reading<'a>,
    leasts: &[u16; 128],
    sizes: &mut [u32; 256],
) -> bool
    ensures settled { (g : Grammar) → ReadsAs reading.now g →
        Settled g leasts.now sizes.new reading.now.rules result }
    ensures kept_from { KeptFrom reading.now.rules sizes.old sizes.new }
{
    for number in 0..reading.rules {
        if !size_settles(Rule::of(reading, number), leasts, sizes) {
            return false;
        }
    }
    true
}
