// Whether a lent table is that of the grammar that words are, by one pass over the words and the table and no rounds. What the
// words of a table mean is entries' specs/Table; what the calls answer is specs/Promise.
#![tactic(auto)]

mod passes;
#[cfg(test)]
mod tests;

ghost use Rattle.table_test.specs.Promise.{TestPromise, Tested};

use layout::judge::Placed;
use layout::reading::Reading;

// What the words are, where they are an accepted grammar and the first words of table are its own. Any words and any table may be
// lent.
pub fn test(words: &[u16], table: &[u16]) -> Option<Placed>
    ensures { TestPromise words.now table.now result }
{
    Some(tested_reading(words, table)?.placed())
}

// The same with the words: what was read of them.
pub fn tested_reading<'a>(words: &'a [u16], table: &[u16]) -> Option<Reading<'a>>
    ensures { Tested words.entry table.now result }
{
    let reading = Reading::of(words).ok()?;
    if passes::passes(&reading, table) {
        Some(reading)
    } else {
        None
    }
}
