// A reading of words that are a grammar: the words, where each rule stands, and the grammar's numbers. Whoever makes one proves the two
// ghost fields, which say what is known of every reading; `of` does. The layers above hand a reading on in place of its parts.
ghost use Rattle.std.specs.Prelude.{◌≡◌, ◌∷◌, []};
ghost use Rattle.grammar.specs.Words.{layout};
ghost use Rattle.layout.specs.Judge.{numbers_of, places_of};

use crate::head::note;
use crate::judge::{Fault, Placed, Shape};
use crate::rules;
use cells::read;

// The words; where the rules stand: the index of each rule's left side, by number, and 0 past the rules; and N, T, the start and
// the number of rules. The places are an array of 256 beside their number, since nothing is allocated.
#[derive(Clone, Copy)]
pub struct Reading<'a> {
    pub words: &'a [u16],
    pub places: [u16; 256],
    pub nonterminals: u16,
    pub terminals: u16,
    pub start: u16,
    pub rules: u16,
    pub ghost numbers: { numbers_of (layout words.now) ≡ nonterminals ∷ terminals ∷ start ∷ rules ∷ [] },
    pub ghost stand: { places ≡ places_of (layout words.now) },
}

impl<'a> Reading<'a> {
    ghost use Rattle.std.specs.Prelude.{◌≤◌, length};
    ghost use Rattle.layout.specs.Read.{ReadOf, placed_in};
    ghost use Rattle.layout.specs.Sides.{left_of, right_of};

    // That of words that are a grammar; of others where they break.
    pub fn of(words: &'a [u16]) -> Result<Reading<'a>, Fault>
        ensures { ReadOf words.entry result }
    {
        let mut places = [0u16; 256];
        let rules = note(words, &mut places)?;
        Ok(Reading {
            words,
            places,
            nonterminals: read(words, 0),
            terminals: read(words, 1),
            start: read(words, 2),
            rules: rules as u16,
        })
    }

    // What it says of the words, by value.
    pub fn placed(&self) -> Placed
        ensures { result ≡ placed_in self.now }
    {
        Placed {
            shape: Shape {
                nonterminals: usize::from(self.nonterminals),
                terminals: usize::from(self.terminals),
                start: usize::from(self.start),
                rules: usize::from(self.rules),
            },
            places: self.places,
        }
    }

    // The left side of the rule of a number.
    pub fn left(&self, number: u16) -> u16
        ensures { result ≡ left_of self.now number }
    {
        read(self.words, rules::index(&self.places, usize::from(number)))
    }

    // The symbols of the rule of a number.
    pub fn right(&self, number: u16) -> &'a [u16]
        ensures result_value { result.now ≡ right_of self.now number }
        ensures result_len_bound { length result.now ≤ 65535 }
    {
        rules::right(self.words, rules::index(&self.places, usize::from(number)))
    }
}
