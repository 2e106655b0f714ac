// A rule of a grammar that was read. Its two sides are found once, and what is known of every rule is said by its ghost fields: the
// grammar has it, its sides are what the words say, and its numbers are within a grammar's bounds.
ghost use Rattle.std.specs.Prelude.{◌≡◌, ◌≤◌, ◌<◌, length};
ghost use Rattle.layout.specs.Sides.{left_of, right_of};

use layout::reading::Reading;

// The reading, the rule's number, its left side and the symbols of its right side.
#[derive(Clone, Copy)]
pub struct Rule<'a> {
    pub reading: &'a Reading<'a>,
    pub number: u16,
    pub left: u16,
    pub symbols: &'a [u16],
    pub ghost stands: { number < reading.now.rules },
    pub ghost left_is: { left ≡ left_of reading.now number },
    pub ghost symbols_are: { symbols.now ≡ right_of reading.now number },
    pub ghost few: { (number < 256) × (left < 128) × (reading.now.nonterminals ≤ 128) × (length symbols.now ≤ 65535) },
}

impl<'a> Rule<'a> {
    // The rule of a number.
    #[tactic(auto, using(crate::proofs::ReadingBounds::few_of))]
    pub fn of(reading: &'a Reading<'a>, number: u16) -> Rule<'a>
        requires { number < reading.now.rules }
        ensures read_there { result.reading ≡ reading.entry }
        ensures numbered { result.number ≡ number }
    {
        Rule {
            reading,
            number,
            left: reading.left(number),
            symbols: reading.right(number),
        }
    }
}
