// The marks, an octet for each rule, 0 for unused: the lowest unused rule, and the setting of the marks of a derivation's rules.
// What each call promises is specs/Marks. A rule that has no mark is unused, and there is nothing to set.
#![tactic(auto)]

ghost use Rattle.std.specs.Prelude.{[], ◌∷◌, take};
ghost use Rattle.marks.specs.Marks.{FirstUnused, Marked};

// The lowest rule below `rules` whose mark is 0. The number stays beside the marks: `FirstUnused` is of both, and marks may be fewer.
#[tactic(auto, using(std::proofs::lemmas::List::get_or_past, crate::specs::Marks::at, crate::specs::Marks::none_unused))]
pub fn first_unused(marks: &[u8], rules: usize) -> Option<usize>
    ensures { FirstUnused marks.now rules result }
{
    for r in 0..rules {
        if marks.len() <= r || marks[r] == 0 {
            return Some(r);
        }
    }
    None
}

// Sets the mark of the rule to 1 where it is 0.
#[tactic(auto, using(crate::proofs::MarksMet::one_marked, crate::proofs::MarksMet::one_kept))]
fn mark_one(marks: &mut [u8], rule: usize)
    ensures { Marked (rule ∷ []) marks.old marks.new }
{
    if rule < marks.len() && marks[rule] == 0 {
        marks[rule] = 1;
    }
}

// Sets to 1 the zero marks of exactly the rules among the first `count` numbers of the derivation, or among all if they are fewer.
// The count stays beside the derivation: the promise is of `take count`, for any count.
pub fn mark_rules(derivation: &[u16], count: usize, marks: &mut [u8])
    ensures { Marked (take count derivation.now) marks.old marks.new }
{
    for &rule in derivation.iter().take(count) {
        mark_one(marks, usize::from(rule));
    }
}
