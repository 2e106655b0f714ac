// The lister: writes the listing of symbols, opened by chosen rules, where there is room, and counts it all. The lister for a
// symbol calls that for a rule, which calls back for each symbol, on falling sizes: by the table the size of a nonterminal is at
// least 1 plus those of its chosen rule's symbols. Document 01 names this form, and not a loop over a stack.
ghost use Rattle.std.specs.Prelude.{◌+◌};
ghost use Rattle.handout.specs.Listing.{size_by, sizes_by, right_of, Few, SameParts};
ghost use Rattle.handout.specs.Listing.{SymbolListed, RuleListed, SymbolsListed};

use crate::listing::Listing;
use crate::tabled::Tabled;
use entries::chosen;

// Lists the symbol s: a terminal as itself, a nonterminal as its chosen rule.
#[cycle(lister)]
#[tactic(auto, using(crate::proofs::ListerSteps::token_listed, crate::proofs::ListerSteps::chosen_listed, crate::proofs::ListerSteps::rule_smaller))]
pub fn list_symbol(tabled: &Tabled, s: u16, out: &mut Listing)
    requires { Few out.old (size_by tabled.now s) }
    ensures same { SameParts out.old out.new }
    ensures listed { SymbolListed tabled.now s out.old out.new }
{
    if tabled.reading.nonterminals <= s {
        out.push_token(s);
    } else {
        list_rule(tabled, chosen(tabled.table, s), out);
    }
}

// Lists the rule of a number: the number, then its symbols.
#[cycle(lister)]
#[tactic(auto, using(crate::proofs::ListerSteps::numbered))]
pub fn list_rule(tabled: &Tabled, rule: u16, out: &mut Listing)
    requires { Few out.old (1 + sizes_by tabled.now (right_of tabled.now rule)) }
    ensures same { SameParts out.old out.new }
    ensures listed { RuleListed tabled.now rule out.old out.new }
{
    out.push_rule(rule);
    list_symbols(tabled, tabled.reading.right(rule), out);
}

// Lists some symbols in order.
#[cycle(lister)]
#[tactic(auto, using(crate::proofs::ListerSteps::none_listed, crate::proofs::ListerSteps::more_listed, crate::proofs::Listings::sizes_within))]
pub fn list_symbols(tabled: &Tabled, symbols: &[u16], out: &mut Listing)
    requires { Few out.old (sizes_by tabled.now symbols.now) }
    ensures same { SameParts out.old out.new }
    ensures listed { SymbolsListed tabled.now symbols.now out.old out.new }
{
    for &s in symbols {
        list_symbol(tabled, s, out);
    }
}
