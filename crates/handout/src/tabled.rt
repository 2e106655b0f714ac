// A grammar with its table: what was read of its words, and a lent table that was found to be the grammar's own, which its ghost field
// says. The lister goes by nothing else.
ghost use Rattle.grammar.specs.Words.{Are};
ghost use Rattle.entries.specs.Table.{Own};

use layout::reading::Reading;

#[derive(Clone, Copy)]
pub struct Tabled<'a> {
    pub reading: &'a Reading<'a>,
    pub table: &'a [u16],
    pub ghost own: { ∥ Are reading.now.words.now (Own table.now) ∥₁ },
}
