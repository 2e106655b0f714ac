// The tree lister: lists the tree of a rule. Context choices lead from the rule's left side up to the start; what lies before the
// rule is listed from the start down, then the rule, then what lies after it from the rule up. The nonterminals on the way up are
// noted on a path: contexts fall from each to the next, so that none comes twice.
ghost use Rattle.std.specs.Prelude.{◌+◌, ◌<◌, ◌≤◌, length, take};
ghost use Rattle.handout.specs.Listing.{sizes_by, Few, SameParts, SymbolsListed};
ghost use Rattle.handout.specs.TreeListing.{Inner, front_of, back_of, FrontListed, Leads};
ghost use Rattle.handout.specs.TreeListing.{before, after, WayReady, WayListed, total_by, TreeListed};

use crate::lister::{list_rule, list_symbols};
use crate::listing::Listing;
use crate::tabled::Tabled;

// The most nonterminals there are, and so the most on a way up.
const MOST_NONTERMINALS: usize = 128;

// Notes on the path the nonterminals from `from` up to below the start, by context choices; how many they are.
// A count beside an array and no Vec: nothing is allocated. The loop follows choices and ends at the start.
#[tactic(auto, using(crate::proofs::PathSteps::way_begins, crate::proofs::PathSteps::way_on, crate::proofs::PathSteps::way_falls, crate::proofs::PathSteps::few_steps))]
fn climb(tabled: &Tabled, from: u16, path: &mut [u16]) -> usize
    requires nonterminal { from < tabled.now.reading.now.nonterminals }
    requires room { tabled.now.reading.now.nonterminals ≤ length path.old }
    ensures short { result ≤ length path.new }
    ensures leads { Leads tabled.now from tabled.now.reading.now.start (take result path.new) }
{
    let mut a = from;
    let mut steps = 0;
    while a != tabled.reading.start {
        path[steps] = a;
        steps += 1;
        a = tabled.reading.left(entries::rule(tabled.table, a));
    }
    steps
}

// Lists the number of the context rule of a, and the symbols before the place.
#[tactic(auto, using(crate::proofs::BesideSteps::front_length, crate::proofs::BesideSteps::front_is, crate::proofs::ListerSteps::numbered))]
fn list_front(tabled: &Tabled, a: u16, out: &mut Listing)
    requires inner { Inner tabled.now a }
    requires few { Few out.old (1 + sizes_by tabled.now (front_of tabled.now a)) }
    ensures same { SameParts out.old out.new }
    ensures listed { FrontListed tabled.now a out.old out.new }
{
    let rule = entries::rule(tabled.table, a);
    let place = usize::from(entries::place(tabled.table, a));
    out.push_rule(rule);
    let symbols = tabled.reading.right(rule);
    list_symbols(tabled, &symbols[..place], out);
}

// Lists what lies before the lowest nonterminal of the way up: context by context from the start down.
fn list_before(tabled: &Tabled, way: &[u16], out: &mut Listing)
    requires { WayReady before tabled.now way.now out.old }
    ensures same { SameParts out.old out.new }
    ensures listed { WayListed before tabled.now way.now out.old out.new }
{
    for &a in way.iter().rev() {
        list_front(tabled, a, out);
    }
}

// Lists the symbols after the place in the context rule of a.
#[tactic(auto, using(crate::proofs::BesideSteps::within_symbols, crate::proofs::BesideSteps::back_is))]
fn list_back(tabled: &Tabled, a: u16, out: &mut Listing)
    requires inner { Inner tabled.now a }
    requires few { Few out.old (sizes_by tabled.now (back_of tabled.now a)) }
    ensures same { SameParts out.old out.new }
    ensures listed { SymbolsListed tabled.now (back_of tabled.now a) out.old out.new }
{
    let symbols = tabled.reading.right(entries::rule(tabled.table, a));
    let next = usize::from(entries::place(tabled.table, a)) + 1;
    list_symbols(tabled, &symbols[next..], out);
}

// Lists what lies after the lowest nonterminal of the way up: context by context up to the start.
#[tactic(auto, using(crate::proofs::PathSteps::after_begins, crate::proofs::PathSteps::back_inner, crate::proofs::PathSteps::back_count, crate::proofs::PathSteps::after_goes_on, crate::proofs::PathSteps::after_ends, std::proofs::lemmas::List::drop_more, std::proofs::lemmas::List::drop_all))]
fn list_after(tabled: &Tabled, way: &[u16], out: &mut Listing)
    requires { WayReady after tabled.now way.now out.old }
    ensures same { SameParts out.old out.new }
    ensures listed { WayListed after tabled.now way.now out.old out.new }
{
    for &a in way {
        list_back(tabled, a, out);
    }
}

// Lists the tree of the target: what lies before it by the way up from its left side, the target, and what lies after.
#[tactic(auto, using(crate::proofs::TreeWrites::left_below, crate::proofs::TreeWrites::way_before, crate::proofs::TreeWrites::rule_few, crate::proofs::TreeWrites::way_after, crate::proofs::TreeWrites::tree_listed))]
pub fn list_tree(tabled: &Tabled, target: u16, out: &mut Listing)
    requires number { target < tabled.now.reading.now.rules }
    requires few { Few out.old (total_by tabled.now target) }
    ensures same { SameParts out.old out.new }
    ensures listed { TreeListed tabled.now target out.old out.new }
{
    let mut path = [0u16; MOST_NONTERMINALS];
    let steps = climb(tabled, tabled.reading.left(target), &mut path);
    let way = &path[..steps];
    list_before(tabled, way, out);
    list_rule(tabled, target, out);
    list_after(tabled, way, out);
}
