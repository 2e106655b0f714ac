// The entries of a table, by name: this file alone knows which word of a table each is. What they mean is specs/Table. A
// nonterminal and a rule are numbers of 16 bits, as words have them, so that every index can be counted; past the end of the
// words an entry is 0, and nothing is written.
#![tactic(auto)]

ghost use Rattle.std.specs.Prelude.{◌≡◌, ◌<◌};
ghost use Rattle.entries.specs.Table.{length_for, least_in, chosen_in, context_in, rule_in, place_in, total_in};
ghost use Rattle.entries.specs.Writing.{with_entries, with_total};

use cells::{put, read};

// The most words of a table: those of 128 nonterminals and 256 rules.
pub const MOST_TABLE: usize = 896;

// The largest total that is accepted.
pub const LIMIT: usize = 4096;

// Stands for the context rule and the place of the start, which has none: a word of document 01's table, and so no Option.
pub const NO_CHOICE: u16 = 65535;

// The entries of a nonterminal.
#[derive(Clone, Copy, Debug, PartialEq, Eq)]
pub struct Entries {
    pub least: u16,
    pub chosen: u16,
    pub context: u16,
    pub rule: u16,
    pub place: u16,
}

// Below, a function for each entry: public names that docs/SETTLED.md has, each one line, and each with an edit of its own.

// How many words the table of so many nonterminals and rules has.
pub fn length(nonterminals: u16, rules: u16) -> usize
    ensures { result ≡ length_for nonterminals rules }
{
    5 * usize::from(nonterminals) + usize::from(rules)
}

pub fn least(table: &[u16], a: u16) -> usize
    ensures { (result ≡ least_in table.now a) × (result < 65536) }
{
    usize::from(read(table, 5 * usize::from(a)))
}

pub fn chosen(table: &[u16], a: u16) -> u16
    ensures { result ≡ chosen_in table.now a }
{
    read(table, 5 * usize::from(a) + 1)
}

pub fn context(table: &[u16], a: u16) -> usize
    ensures { (result ≡ context_in table.now a) × (result < 65536) }
{
    usize::from(read(table, 5 * usize::from(a) + 2))
}

// The context rule.
pub fn rule(table: &[u16], a: u16) -> u16
    ensures { result ≡ rule_in table.now a }
{
    read(table, 5 * usize::from(a) + 3)
}

// The place of a in its context rule.
pub fn place(table: &[u16], a: u16) -> u16
    ensures { result ≡ place_in table.now a }
{
    read(table, 5 * usize::from(a) + 4)
}

// The total of a rule.
pub fn total(table: &[u16], nonterminals: u16, r: u16) -> usize
    ensures { (result ≡ total_in nonterminals table.now r) × (result < 65536) }
{
    usize::from(read(table, 5 * usize::from(nonterminals) + usize::from(r)))
}

// Writes the entries of a.
pub fn write(table: &mut [u16], a: u16, entries: Entries)
    ensures { table.new ≡ with_entries table.old a entries }
{
    let at = 5 * usize::from(a);
    put(table, at, entries.least);
    put(table, at + 1, entries.chosen);
    put(table, at + 2, entries.context);
    put(table, at + 3, entries.rule);
    put(table, at + 4, entries.place);
}

// Writes the total of a rule.
pub fn write_total(table: &mut [u16], nonterminals: u16, r: u16, total: u16)
    ensures { table.new ≡ with_total table.old nonterminals r total }
{
    put(table, 5 * usize::from(nonterminals) + usize::from(r), total);
}
