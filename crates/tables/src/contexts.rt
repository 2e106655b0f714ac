// The contexts, by rounds over all rules until nothing falls; and the totals by them. A rule that was tried lowers nothing more
// until the context of its left side falls: that context is kept for each rule, and while it stands the rule is passed over.
ghost use Rattle.std.specs.Prelude.{◌≡◌, ◌≤◌, ◌<◌, length, get_or};
ghost use Rattle.grammar.specs.Words.{Grammar};
ghost use Rattle.layout.specs.Read.{ReadsAs};
ghost use Rattle.tables.specs.ContextFigures.{Grown, ContextsRest, TotalsOf};
ghost use Rattle.tables.specs.ContextSteps.{PlaceStep, PlacesStep, RuleStep, SeenTurn, SeenRound};

use crate::chains::Chains;
use figures::{NO_FIGURE, cap, figure_at, in_turn, lower};
use layout::reading::Reading;
use leasts::FoundLeasts;

// The figures of a grammar: its leasts, its contexts, and its totals.
// An array each, here and in Choices: the law table_found (docs/THEOREMS.md) takes lists, and each is whole before the next.
#[derive(Clone, Copy)]
pub struct GrammarFigures<'a> {
    pub reading: &'a Reading<'a>,
    pub leasts: &'a [u16; 128],
    pub contexts: &'a [u16; 128],
    pub totals: &'a [u16; 256],
}

// The contexts found so far; and what is seen of each rule: the context that its left side had when it was last tried, and
// NO_FIGURE where it never was.
// NO_FIGURE, and no Option: `Stands` of specs/ContextSteps compares the two, and the edit reached_by_naming holds it.
#[derive(Drop)]
pub struct Contexts {
    pub figures: [u16; 128],
    pub seen: [u16; 256],
}

// The size of rule r, to add to. There is no From<u32> for usize.
// r < rules is asked of each caller: a Rule as leasts has it can't be public in layout, as no public function of a library may ask.
pub fn rule_size(found: &FoundLeasts<'_>, r: u16) -> usize
    requires { r < found.now.reading.rules }
    ensures { (result ≡ get_or found.now.sizes r 0) × (result < 4294967296) }
{
    found.sizes[usize::from(r)] as usize
}

// Lowers the context of the symbol s of a rule, where whole is the rule's size and the context of its left side: the symbol's own
// least is taken off again. How many figures fell.
#[tactic(auto, using(crate::specs::ContextSteps::skipped, crate::specs::ContextSteps::tried))]
fn lower_context(found: &FoundLeasts<'_>, s: u16, whole: usize, contexts: &mut [u16]) -> usize
    ensures { PlaceStep found.now.reading.nonterminals whole found.now.leasts s contexts.old contexts.new result }
{
    if found.reading.nonterminals <= s {
        return 0;
    }
    let a = usize::from(s);
    let least = figure_at(&found.leasts, a);
    if whole < least {
        return 0;
    }
    let to = cap(whole - least);
    lower(contexts, a, to)
}

// The same for each symbol of a rule.
fn lower_contexts(
    found: &FoundLeasts<'_>,
    symbols: &[u16],
    whole: usize,
    contexts: &mut [u16],
) -> usize
    requires { length symbols.now ≤ 65535 }
    ensures { PlacesStep found.now.reading.nonterminals whole found.now.leasts symbols.now contexts.old contexts.new result }
{
    let mut fell = 0;
    for &s in symbols {
        fell += lower_context(found, s, whole, contexts);
    }
    fell
}

impl Contexts {
    // Rule r, where it was not tried yet with the context that its left side has. How many figures fell.
    fn try_rule(&mut self, found: &FoundLeasts<'_>, r: u16) -> usize
        requires { r < found.now.reading.rules }
        ensures { RuleStep found.now r self.old self.new result }
    {
        let left = usize::from(found.reading.left(r));
        let k = usize::from(r);
        let context = self.figures[left];
        if context == self.seen[k] {
            return 0;
        }
        self.seen[k] = context;
        let whole = usize::from(context) + rule_size(found, r);
        lower_contexts(found, found.reading.right(r), whole, &mut self.figures)
    }

    // The turn of a rule: where a context falls, the rule noted for the last of its symbols is tried next, and so on. Whether one
    // fell by the first.
    fn turn(&mut self, chains: &Chains<'_>, first: u16) -> bool
        requires { first < chains.now.found.now.reading.rules }
        ensures { SeenTurn chains.now.found.now first self.old self.new result }
    {
        let mut fell = false;
        let mut next = Some(first);
        while let Some(r) = next {
            if self.try_rule(chains.found, r) == 0 {
                return fell;
            }
            fell = true;
            next = chains.next(r);
        }
        fell
    }

    // A round over all rules, from the first to the last or back; how many figures fell.
    fn round(&mut self, chains: &Chains<'_>, up: bool) -> usize
        ensures { SeenRound chains.now.found.now self.old self.new result }
    {
        let rules = chains.found.reading.rules;
        let mut fell = 0;
        for i in 0..rules {
            let r = in_turn(usize::from(i), usize::from(rules), up);
            if self.turn(chains, r as u16) {
                fell += 1;
            }
        }
        fell
    }
}

// The contexts, by rounds up and down in turn until one changes nothing.
pub fn contexts_of(found: &FoundLeasts<'_>) -> [u16; 128]
    ensures { (grown : Grown found.now) → ContextsRest grown.grammar found.now.leasts result }
{
    let chains = Chains::of(found);
    // At the outset the start alone has a context, and no rule was tried.
    let mut contexts = Contexts {
        figures: [NO_FIGURE; 128],
        seen: [NO_FIGURE; 256],
    };
    contexts.figures[usize::from(found.reading.start)] = 0;
    let mut up = true;
    while 0 < contexts.round(&chains, up) {
        up = !up;
    }
    contexts.figures
}

// The total of each rule, cut at 4,097.
pub fn rule_totals(found: &FoundLeasts<'_>, contexts: &[u16; 128]) -> [u16; 256]
    ensures { (g : Grammar) → ReadsAs found.now.reading g → TotalsOf g contexts.now found.now.sizes result }
{
    let mut totals = [0; 256];
    for r in 0..found.reading.rules {
        let context = figure_at(contexts, usize::from(found.reading.left(r)));
        totals[usize::from(r)] = cap(context + rule_size(found, r));
    }
    totals
}
