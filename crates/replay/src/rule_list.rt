// A list of rule numbers that is replayed, with the reading of the grammar whose rules they number. That they are not too many is
// known of every list by its ghost field; the steps of a replay hand a list on in place of its parts.
ghost use Rattle.std.specs.Prelude.{◌≤◌, length};
ghost use Rattle.replay.specs.Replay.{most_numbers};

use answers::Refusal;
use layout::reading::Reading;

// The most numbers that a replayed list has.
pub const MOST_NUMBERS: usize = 4096;

#[derive(Drop)]
pub struct RuleList<'a> {
    pub reading: &'a Reading<'a>,
    pub numbers: &'a [u16],
    pub ghost few: { length numbers.now ≤ most_numbers },
}

impl<'a> RuleList<'a> {
    ghost use Rattle.replay.specs.ReplaySteps.{Listed};

    // The list, or 12.
    pub fn new(reading: &'a Reading<'a>, numbers: &'a [u16]) -> Result<RuleList<'a>, Refusal>
        ensures { Listed reading.entry numbers.entry result }
    {
        if MOST_NUMBERS < numbers.len() {
            return Err(Refusal::LongList { most: MOST_NUMBERS });
        }
        Ok(RuleList { reading, numbers })
    }
}
