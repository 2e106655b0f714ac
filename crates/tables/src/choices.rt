// The choices, where no figure is cut: the chosen rule of each nonterminal, and its context rule and place.
ghost use Rattle.std.specs.Prelude.{◌<◌};
ghost use Rattle.tables.specs.Choices.{RulesChosen, LeadsChosen, LeadsNoted, Noted};

use crate::contexts::{GrammarFigures, rule_size};
use figures::figure_at;
use leasts::FoundLeasts;

// The context rule of a nonterminal, and its place there.
#[derive(Clone, Copy)]
pub struct Lead {
    pub rule: u16,
    pub place: u16,
}

// For each nonterminal its chosen rule, and its lead, where it has one.
#[derive(Clone, Copy)]
pub struct Choices<'a> {
    pub chosen: &'a [Option<u16>; 128],
    pub leads: &'a [Option<Lead>; 128],
}

// Notes a choice for a nonterminal that has none yet.
#[tactic(auto, using(crate::specs::Choices::noted, crate::specs::Choices::kept))]
fn note<T: Copy>(choices: &mut [Option<T>], a: usize, choice: T)
    ensures { Noted choices.old a choice choices.new }
{
    if let Some(None) = choices.get(a) {
        choices[a] = Some(choice);
    }
}

// The first rule of each nonterminal whose size is its least.
pub fn choose_rules(found: &FoundLeasts<'_>) -> [Option<u16>; 128]
    ensures { RulesChosen found.now result }
{
    let mut chosen = [None; 128];
    for r in 0..found.reading.rules {
        let left = usize::from(found.reading.left(r));
        if figure_at(&found.leasts, left) == rule_size(found, r) {
            note(&mut chosen, left, r);
        }
    }
    chosen
}

// The first rule and place of each nonterminal that give its context.
pub fn choose_leads(figures: GrammarFigures<'_>) -> [Option<Lead>; 128]
    ensures { LeadsChosen figures.entry result }
{
    let mut leads = [None; 128];
    for r in 0..figures.reading.rules {
        choose_leads_of(figures, r, &mut leads);
    }
    leads
}

// The same among the places of rule r: a nonterminal there whose least and context are the rule's total.
fn choose_leads_of(figures: GrammarFigures<'_>, r: u16, leads: &mut [Option<Lead>])
    requires { r < figures.reading.now.rules }
    ensures { LeadsNoted figures.entry r leads.old leads.new }
{
    let GrammarFigures {
        reading,
        leasts,
        contexts,
        totals,
    } = figures;
    let total = usize::from(totals[usize::from(r)]);
    for (place, &s) in reading.right(r).iter().enumerate() {
        if s < reading.nonterminals {
            let a = usize::from(s);
            if figure_at(leasts, a) + figure_at(contexts, a) == total {
                note(
                    leads,
                    a,
                    Lead {
                        rule: r,
                        place: place as u16,
                    },
                );
            }
        }
    }
}
