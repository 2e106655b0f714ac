// The head of grammar words, N, T and the start, and what is judged by it: the rules, their symbols, and where they break.
ghost use Rattle.std.specs.Prelude.{◌≡◌, ◌≤◌, ◌<◌, length, IfOk, OnOk};
ghost use Rattle.grammar.specs.Words.{layout};
ghost use Rattle.layout.specs.Judge.{answer_of, no_places, places_of};
ghost use Rattle.layout.specs.JudgeParts.{FirstUnfit, shaped};

use crate::judge::Fault;
use crate::walk::{FIRST_RULE, MOST_RULES};
use crate::words::word;

const MOST_NONTERMINALS: usize = 128;

const MOST_TERMINALS: usize = 1024;

const MOST_SYMBOLS: usize = 32;

// Words whose head is fit, with its N and T.
#[derive(Clone, Copy)]
pub struct Head<'a> {
    words: &'a [u16],
    nonterminals: usize,
    terminals: usize,
    ghost few: { (nonterminals ≤ 128) × (terminals ≤ 1024) },
}

impl<'a> Head<'a> {
    ghost use Rattle.layout.specs.Heads.{Headed};
    ghost use Rattle.layout.specs.JudgeParts.{Symbols, SymbolsEnd, Ruled, RuleEnds, RulesNumbered, PlacesTold};

    // N, T and the start, the first three words.
    pub fn judge(words: &'a [u16]) -> Result<Head<'a>, Fault>
        ensures { Headed words.entry result }
    {
        let len = words.len();
        let nonterminals = word(words, 0);
        let terminals = word(words, 1);
        if nonterminals == 0 {
            return Err(Fault { place: 0 });
        }
        if MOST_NONTERMINALS < nonterminals {
            return Err(Fault { place: 0 });
        }
        if len < 2 {
            return Err(Fault { place: 1 });
        }
        if MOST_TERMINALS < terminals {
            return Err(Fault { place: 1 });
        }
        if len < 3 {
            return Err(Fault { place: 2 });
        }
        if nonterminals <= word(words, 2) {
            return Err(Fault { place: 2 });
        }
        Ok(Head {
            words,
            nonterminals,
            terminals,
        })
    }

    // The rules to the end of the words, each noted. Ok carries their number.
    pub fn judge_rules(self, places: &mut [u16]) -> Result<usize, Fault>
        requires { 256 ≤ length places.old }
        ensures rules_numbered { RulesNumbered self.entry.words.now self.entry.nonterminals self.entry.terminals 3 result }
        ensures places_told { PlacesTold self.entry.words.now places.old result places.new }
        ensures few { IfOk result (λ n. n ≤ 256) }
    {
        let mut at = FIRST_RULE;
        for rules in 0..MOST_RULES {
            if self.words.len() <= at {
                return Ok(rules);
            }
            places[rules] = at as u16;
            at = self.judge_rule(at)?;
        }
        if at < self.words.len() {
            return Err(Fault { place: at });
        }
        Ok(MOST_RULES)
    }

    // The rule whose left side is at an index. Ok carries the index past it.
    fn judge_rule(self, at: usize) -> Result<usize, Fault>
        requires { at < length self.words.now }
        ensures ruled { Ruled self.entry.words.now self.entry.nonterminals self.entry.terminals at result }
        ensures rule_ends { RuleEnds self.entry.words.now at result }
    {
        if self.nonterminals <= word(self.words, at) {
            return Err(Fault { place: at });
        }
        let first = at + 2;
        let len = self.words.len();
        if len < first {
            return Err(Fault { place: len });
        }
        let count = word(self.words, at + 1);
        if MOST_SYMBOLS < count {
            return Err(Fault { place: at + 1 });
        }
        self.judge_symbols(first, count)
    }

    // The symbols from index first on, as many as count says. Ok carries the index past them.
    fn judge_symbols(self, first: usize, count: usize) -> Result<usize, Fault>
        requires { first ≤ length self.words.now }
        ensures symbols { Symbols self.entry.words.now self.entry.nonterminals self.entry.terminals first count result }
        ensures symbols_end { SymbolsEnd self.entry.words.now first count result }
    {
        let limit = self.nonterminals + self.terminals;
        let len = self.words.len();
        if len - first < count {
            return Err(Fault {
                place: first_unfit(self.words, limit, first, len),
            });
        }
        let end = first + count;
        let place = first_unfit(self.words, limit, first, end);
        if place < end {
            Err(Fault { place })
        } else {
            Ok(end)
        }
    }
}

// Whether words are a grammar, of how many rules, and where these stand into an array of 0.
pub fn note(words: &[u16], places: &mut [u16; 256]) -> Result<usize, Fault>
    requires { places.old ≡ no_places }
    ensures value { shaped words.now result ≡ answer_of (layout words.now) }
    ensures places_after { OnOk result (places.new ≡ places_of (layout words.now)) }
    ensures few { IfOk result (λ rules. rules ≤ 256) }
{
    Head::judge(words)?.judge_rules(places)
}

// The first index, from one index up to another, whose word is not below the limit; the other where there is none.
fn first_unfit(words: &[u16], limit: usize, from: usize, end: usize) -> usize
    requires { (from ≤ end) × (end ≤ length words.now) }
    ensures { FirstUnfit words.now limit from end result }
{
    for i in from..end {
        if limit <= usize::from(words[i]) {
            return i;
        }
    }
    end
}
