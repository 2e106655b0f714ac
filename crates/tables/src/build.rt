// The table of a grammar, worked out in the order of document 01's rows: the words and the leasts (4, 5), the contexts (6), the
// totals (7), and only then, where there is room (3), the choices and the words.
ghost use Rattle.std.specs.Prelude.{List, ℕ};
ghost use Rattle.std.specs.Borrow.{Bor};
ghost use Rattle.leasts.specs.Promise.{FiguresFound};
ghost use Rattle.tables.specs.Answers.{told};
ghost use Rattle.tables.specs.Promise.{Tables};

use crate::choices::{Choices, choose_leads, choose_rules};
use crate::contexts::{GrammarFigures, contexts_of, rule_totals};
use crate::fill::fill;
use answers::Refusal;
use entries::LIMIT;
use figures::{OVER, first_above};
use leasts::FoundLeasts;

// Writes the table of the grammar that the words are into the front of a buffer. Ok carries how many words were written.
pub fn worked_out(words: &[u16], table: &mut [u16]) -> Result<usize, Refusal>
    ensures { Tables words.now table.old (told result) table.new }
{
    // No `?` here: it moves what was found, 1,800 octets, which took tables of D a fifth longer.
    match &FoundLeasts::of(words) {
        Ok(found) => of_leasts(found, table),
        Err(fault) => Err(Refusal::from(*fault)),
    }
}

// The same from the leasts.
fn of_leasts<'a>(found: &'a FoundLeasts<'a>, table: &mut [u16]) -> Result<usize, Refusal>
    ensures { (words : Bor (List ℕ)) → FiguresFound words found.now → Tables words.now table.old (told result) table.new }
{
    let n = usize::from(found.reading.nonterminals);
    let over = usize::from(OVER);
    if let Some(nonterminal) = first_above(&found.leasts, n, over) {
        return Err(Refusal::NoTree { nonterminal });
    }
    let contexts = contexts_of(found);
    if let Some(nonterminal) = first_above(&contexts, n, over) {
        return Err(Refusal::Unreached { nonterminal });
    }
    let totals = rule_totals(found, &contexts);
    if let Some(rule) = first_above(&totals, usize::from(found.reading.rules), LIMIT) {
        return Err(Refusal::Oversize { rule });
    }
    let needed = entries::length(found.reading.nonterminals, found.reading.rules);
    if table.len() < needed {
        return Err(Refusal::TooShort { needed });
    }
    let figures = GrammarFigures {
        reading: &found.reading,
        leasts: &found.leasts,
        contexts: &contexts,
        totals: &totals,
    };
    let choices = Choices {
        chosen: &choose_rules(found),
        leads: &choose_leads(figures),
    };
    fill(figures, choices, table);
    Ok(needed)
}
