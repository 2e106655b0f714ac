// Figures: numbers found so far, one word for each nonterminal, cut at 4,097. NO_FIGURE is none: none is found yet, and past the
// end of the words there is none either. How one is read, lowered and searched for, and in which order rules are visited. Every
// call answers for any words and any numbers; what each promises is specs/Figures.
#![tactic(auto)]

ghost use Rattle.std.specs.Prelude.{◌≡◌, ◌≤◌, ◌<◌};
ghost use Rattle.figures.specs.Figures.{figure, capped, Lowered, FirstAbove, turn};

// Stands where there is no figure yet: a word, and no `None`, since `no_figure_exactly` (docs/THEOREMS.md) says it of the words.
pub const NO_FIGURE: u16 = 65535;

// Stands for every size above the limit.
pub const OVER: u16 = 4097;

// The figure at a, and NO_FIGURE past the end.
pub fn figure_at(figures: &[u16], a: usize) -> usize
    ensures value { result ≡ figure figures.now a }
    ensures upper_bound { result ≤ 65535 }
{
    usize::from(figures.get(a).copied().unwrap_or(NO_FIGURE))
}

// A size as a figure.
pub fn cap(size: usize) -> u16
    ensures { result ≡ capped size }
{
    size.min(usize::from(OVER)) as u16
}

// Lowers the figure at a; 1 where it was higher, else 0: how many fell is a number, as `Lowered` and `lower_settles` have it.
#[tactic(auto, using(crate::proofs::FiguresFall::figure_is, crate::specs::Figures::fell, crate::specs::Figures::stayed))]
pub fn lower(figures: &mut [u16], a: usize, to: u16) -> usize
    ensures { Lowered figures.old a to figures.new result }
{
    if a < figures.len() && to < figures[a] {
        figures[a] = to;
        1
    } else {
        0
    }
}

// The lowest place below n whose figure is above most. The number stays beside the figures: `FirstAbove` is of both.
#[tactic(auto, using(crate::specs::Figures::found_at, crate::specs::Figures::found_none))]
pub fn first_above(figures: &[u16], n: usize, most: usize) -> Option<usize>
    ensures { FirstAbove figures.now n most result }
{
    for a in 0..n {
        if most < figure_at(figures, a) {
            return Some(a);
        }
    }
    None
}

// The rule that a round over so many visits in its turn i, from the first to the last or back. A round has no turn past the last;
// there it is i, or 0. One function for both ways, as its promise `turn up` and `in_turn_settles` have it.
pub fn in_turn(i: usize, rules: usize, up: bool) -> usize
    ensures { (result ≡ turn up rules i) × (i < rules → result < rules) }
{
    if up {
        return i;
    }
    rules.saturating_sub(1).saturating_sub(i)
}
