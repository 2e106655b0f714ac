// The table, filled from the arrays that its figures and choices are worked out in.
ghost use Rattle.std.specs.Prelude.{◌≡◌, List, [], ℕ, ◌<◌};
ghost use Rattle.entries.specs.Writing.{entries_of};
ghost use Rattle.tables.specs.Filling.{found_in, HasRoom, EnteredTo, TotalledTo, Filled};
ghost use Rattle.tables.specs.declared.choices.Choices.{Choices};

use crate::choices::{Choices, Lead};
use crate::contexts::GrammarFigures;
use entries::{Entries, NO_CHOICE};

// Stands in the table for the lead of the start, which has none.
const NO_LEAD: Lead = Lead {
    rule: NO_CHOICE,
    place: NO_CHOICE,
};

// The entries of the nonterminals, then the totals of the rules, into the front of table.
pub fn fill(figures: GrammarFigures<'_>, choices: Choices<'_>, table: &mut [u16])
    requires { HasRoom figures table.old }
    ensures { Filled figures.entry choices.entry table.old table.new }
{
    fill_entries(figures, choices, table);
    fill_totals(figures, table);
}

// The entries of each nonterminal.
fn fill_entries(figures: GrammarFigures<'_>, choices: Choices<'_>, table: &mut [u16])
    requires { HasRoom figures table.old }
    ensures { EnteredTo figures.entry choices.entry figures.entry.reading.now.nonterminals table.old table.new }
{
    for a in 0..figures.reading.nonterminals {
        entries::write(
            table,
            a,
            entries_of(figures.leasts, figures.contexts, choices, a),
        );
    }
}

// The entries of nonterminal a.
fn entries_of(leasts: &[u16; 128], contexts: &[u16; 128], choices: Choices<'_>, a: u16) -> Entries
    requires { a < 128 }
    ensures { result ≡ entries_of (found_in leasts.now choices.entry.chosen.now contexts.now choices.entry.leads.now []) a }
{
    let a = usize::from(a);
    let lead = choices.leads[a].unwrap_or(NO_LEAD);
    Entries {
        least: leasts[a],
        chosen: choices.chosen[a].unwrap_or(NO_CHOICE),
        context: contexts[a],
        rule: lead.rule,
        place: lead.place,
    }
}

// The total of each rule, after them.
fn fill_totals(figures: GrammarFigures<'_>, table: &mut [u16])
    ensures { (choices : Choices) (before : List ℕ) → HasRoom figures.entry before →
        TotalledTo figures.entry choices 0 before table.old →
        TotalledTo figures.entry choices figures.entry.reading.now.rules before table.new }
{
    let reading = figures.reading;
    for r in 0..reading.rules {
        entries::write_total(
            table,
            reading.nonterminals,
            r,
            figures.totals[usize::from(r)],
        );
    }
}
