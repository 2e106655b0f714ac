// Whether a lent table is a grammar's: one pass over the nonterminals and one over the rules, by tests of single entries. No size
// is worked out anew but a rule's, once, and nothing is taken off: the least and the context of a symbol come to at most the
// total of each rule that names it, and where they come to as much the stored rule and place do not come after.
// Of a table that is too short the entries that are missing are read as 0; the length is tested besides.
// The reading and the table are handed on as two: one struct of both would be no plainer, and say nothing of them before the test.
ghost use Rattle.std.specs.Prelude.{◌+◌, ◌*◌, ◌≤◌, ◌<◌, ◌↔◌, IfSome, IsTrue};
ghost use Rattle.entries.specs.Table.{Own};
ghost use Rattle.table_test.specs.Passes.{Answer, PlacePasses, SizePasses, LeftPasses, RulePassesAt, RulesPass};
ghost use Rattle.table_test.specs.Passes.{ComesTo, ChosenPasses, ContextPasses, StartPasses, ChoicePasses, ChoicesPass};

use entries::{LIMIT, NO_CHOICE};
use layout::reading::Reading;

// Whether a table passes all tests: it is long enough, and its choices and its rules are right.
pub fn passes(reading: &Reading, table: &[u16]) -> bool
    ensures { Answer reading.now (Own table.now) result }
{
    if table.len() < entries::length(reading.nonterminals, reading.rules) {
        return false;
    }
    choices_pass(reading, table) && rules_pass(reading, table)
}

// Whether the choices of every nonterminal are right.
fn choices_pass(reading: &Reading, table: &[u16]) -> bool
    ensures { Answer reading.now (λ g. ChoicesPass g table.now) result }
{
    for a in 0..reading.nonterminals {
        if !choice_passes(reading, a, table) {
            return false;
        }
    }
    true
}

// Whether the two choices of a are right.
fn choice_passes(reading: &Reading, a: u16, table: &[u16]) -> bool
    ensures { Answer reading.now (λ g. ChoicePasses g table.now a) result }
{
    if !chosen_passes(reading, a, table) {
        return false;
    }
    if a == reading.start {
        start_passes(a, table)
    } else {
        context_passes(reading, a, table)
    }
}

// Whether the chosen rule of a is one of a's, and its total what a's least and context come to.
fn chosen_passes(reading: &Reading, a: u16, table: &[u16]) -> bool
    ensures { Answer reading.now (λ g. ChosenPasses g table.now a) result }
{
    let chosen = entries::chosen(table, a);
    if reading.rules <= chosen {
        return false;
    }
    reading.left(chosen) == a && comes_to(table, reading.nonterminals, chosen, a)
}

// Whether the context of a, which is the start, is 0, with no rule and no place.
fn start_passes(a: u16, table: &[u16]) -> bool
    ensures { IsTrue result ↔ StartPasses table.now a }
{
    entries::context(table, a) == 0
        && entries::rule(table, a) == NO_CHOICE
        && entries::place(table, a) == NO_CHOICE
}

// Whether the context rule of a has a at the context place, and its total is what a's least and context come to.
fn context_passes(reading: &Reading, a: u16, table: &[u16]) -> bool
    ensures { Answer reading.now (λ g. ContextPasses g table.now a) result }
{
    let rule = entries::rule(table, a);
    if reading.rules <= rule {
        return false;
    }
    let place = usize::from(entries::place(table, a));
    reading.right(rule).get(place) == Some(&a) && comes_to(table, reading.nonterminals, rule, a)
}

// Whether the total of a rule is what a's least and context come to.
fn comes_to(table: &[u16], nonterminals: u16, rule: u16, a: u16) -> bool
    ensures { IsTrue result ↔ ComesTo nonterminals table.now rule a }
{
    entries::total(table, nonterminals, rule)
        == entries::least(table, a) + entries::context(table, a)
}

// Whether every rule passes.
fn rules_pass(reading: &Reading, table: &[u16]) -> bool
    ensures { Answer reading.now (λ g. RulesPass g table.now) result }
{
    for number in 0..reading.rules {
        if !rule_passes(reading, number, table) {
            return false;
        }
    }
    true
}

// Whether the rule of a number passes.
fn rule_passes(reading: &Reading, number: u16, table: &[u16]) -> bool
    requires { number < reading.now.rules }
    ensures { Answer reading.now (λ g. RulePassesAt g table.now number) result }
{
    let total = entries::total(table, reading.nonterminals, number);
    if LIMIT < total {
        return false;
    }
    let Some(size) = size_passes(reading, number, total, table) else {
        return false;
    };
    left_passes(reading.left(number), number, size, total, table)
}

// 1 and the sizes of a rule's symbols; none where one of its places does not pass.
fn size_passes(reading: &Reading, number: u16, total: usize, table: &[u16]) -> Option<usize>
    ensures size { SizePasses reading.now table.now number total result }
    ensures few { IfSome result (λ size. size ≤ 1 + 65535 * 65535) }
{
    let symbols = reading.right(number);
    let mut size = 1;
    for (place, &symbol) in symbols.iter().enumerate() {
        if reading.nonterminals <= symbol {
            size += 1;
        } else if place_passes(symbol, number, place, total, table) {
            size += entries::least(table, symbol);
        } else {
            return None;
        }
    }
    Some(size)
}

// Whether one place of a rule leaves the context of the symbol s right.
fn place_passes(s: u16, number: u16, place: usize, total: usize, table: &[u16]) -> bool
    ensures { IsTrue result ↔ PlacePasses table.now s number place total }
{
    let whole = entries::least(table, s) + entries::context(table, s);
    if whole != total {
        return whole < total;
    }
    // Read at a tie alone, and so no part of one order with the totals: with that the call took a third longer.
    let rule = entries::rule(table, s);
    let first = usize::from(entries::place(table, s));
    (rule, first) <= (number, place)
}

// Whether a rule of the size and the total leaves the least and the chosen rule of its left side right.
fn left_passes(left: u16, number: u16, size: usize, total: usize, table: &[u16]) -> bool
    requires { size ≤ 1 + 65535 * 65535 }
    ensures { IsTrue result ↔ LeftPasses table.now left number size total }
{
    let least = entries::least(table, left);
    let chosen = entries::chosen(table, left);
    entries::context(table, left) + size == total && (least, chosen) <= (size, number)
}
