// What `next` answers once the table is tested: what is decided before a word is written, and then the writing. Deciding takes the
// buffers' marks and lengths alone.
ghost use Rattle.std.specs.Prelude.{◌<◌, length};
ghost use Rattle.handout.specs.Next.{NextPromise};
ghost use Rattle.handout.specs.RowsPassed.{UpToEight, Decided, Wants, RoomTold};
ghost use Rattle.handout.specs.TreeListing.{TreeFits};

use crate::NextAnswer;
use crate::listing::Listing;
use crate::tabled::Tabled;
use crate::tree_lister::list_tree;
use answers::Refusal;
use cells::narrow;
use entries::total;
use marks::{first_unused, mark_rules};
use tables::TableAnswer;

// The refusal where the table is not the grammar's own. A table is worked out with no room to write it, for 4, 5, 6 and 7; that it is
// refused by 3 says that they are passed, and so does Done, which cannot be. The numbers are those of document 01's answer: crate tables
// has no other public call, so that they are turned back into refusals here.
#[tactic(auto, using(crate::proofs::NextOutcomes::by_row, crate::proofs::NextOutcomes::by_8))]
pub fn without_table(words: &[u16]) -> Refusal
    ensures { UpToEight words.now result }
{
    match tables::tables(words, &mut []) {
        TableAnswer::Refused { number: 4, place } => Refusal::BrokenLayout { place },
        TableAnswer::Refused { number: 5, place } => Refusal::NoTree { nonterminal: place },
        TableAnswer::Refused { number: 6, place } => Refusal::Unreached { nonterminal: place },
        TableAnswer::Refused { number: 7, place } => Refusal::Oversize { rule: place },
        _ => Refusal::NotItsTable,
    }
}

// With the grammar's own table, before a word is written: the target, for whose sentence and derivation there is room, or none where
// no rule is unused, or 9, 3 or 10.
#[tactic(auto, using(crate::proofs::NextOutcomes::refuses_9, crate::proofs::NextOutcomes::finishes, crate::proofs::NextOutcomes::wants, crate::proofs::NextOutcomes::refuses_room, answers::proofs::HandedOn::handed_on))]
pub fn decide(
    tabled: &Tabled,
    marks: &[u8],
    sentence: &[u16],
    derivation: &[u16],
) -> Result<Option<u16>, Refusal>
    ensures { Decided tabled.now
        (record { marks = marks.now; tokens = sentence.now; rules = derivation.now }) result }
{
    let rules = usize::from(tabled.reading.rules);
    if marks.len() < rules {
        return Err(Refusal::FewMarks { rules });
    }
    let Some(lowest) = first_unused(marks, rules) else {
        return Ok(None);
    };
    let target = narrow(lowest);
    find_room(tabled, target, sentence.len(), derivation.len())?;
    Ok(Some(target))
}

// Where both buffers have room for as many numbers as the total says, there is room for the sentence and for the derivation;
// otherwise they are counted first, so that 3 and 10 are known before a word is written.
#[tactic(auto, using(crate::proofs::NextOutcomes::fits_total, crate::proofs::NextOutcomes::short_tokens, crate::proofs::NextOutcomes::short_rules, crate::proofs::NextOutcomes::fits_counted, crate::proofs::SizesByTable::total_few))]
fn find_room(tabled: &Tabled, target: u16, tokens: usize, rules: usize) -> Result<(), Refusal>
    requires { target < tabled.now.reading.now.rules }
    ensures { RoomTold tabled.now target tokens rules result }
{
    let total = total(tabled.table, tabled.reading.nonterminals, target);
    if total <= tokens.min(rules) {
        return Ok(());
    }
    let mut counted = Listing {
        sentence: &mut [],
        derivation: &mut [],
        tokens: 0,
        rules: 0,
    };
    list_tree(tabled, target, &mut counted);
    if tokens < counted.tokens {
        return Err(Refusal::TooShort {
            needed: counted.tokens,
        });
    }
    if rules < counted.rules {
        return Err(Refusal::DerivationShort {
            needed: counted.rules,
        });
    }
    Ok(())
}

// The sentence, the derivation and the marks, for which there is room.
#[tactic(auto, using(crate::proofs::NextOutcomes::below, crate::proofs::SizesByTable::total_few))]
pub fn write_out(
    tabled: &Tabled,
    target: u16,
    marks: &mut [u8],
    sentence: &mut [u16],
    derivation: &mut [u16],
) -> NextAnswer
    requires wanted { Wants tabled.now marks.old target }
    requires fits { TreeFits tabled.now target (length sentence.old) (length derivation.old) }
    ensures { NextPromise tabled.now.reading.now.words.now tabled.now.table.now
        (record { marks = marks.old; tokens = sentence.old; rules = derivation.old }) result
        (record { marks = marks.new; tokens = sentence.new; rules = derivation.new }) }
{
    let mut listing = Listing {
        sentence,
        derivation,
        tokens: 0,
        rules: 0,
    };
    list_tree(tabled, target, &mut listing);
    let tokens = listing.tokens;
    let rules = listing.rules;
    mark_rules(derivation, rules, marks);
    NextAnswer::Next {
        target: usize::from(target),
        tokens,
        rules,
    }
}
