// The calls. Assumes nothing.
use layout::walk::{RuleSpan, RuleWalk};

// More rules than a grammar has: a walk that hands out so many is stopped.
const MOST_HANDED: usize = 257;

pub fn judge(words: &[u16]) {
    match layout::judge::judge(words) {
        Ok(shape) => {
            print::text(b" grammar");
            print::number(shape.nonterminals);
            print::number(shape.terminals);
            print::number(shape.start);
            print::number(shape.rules);
        }
        Err(fault) => {
            print::text(b" fault");
            print::number(fault.place);
        }
    }
}

// Prints the rules that a walk hands out, from a number on, and then how many it handed out in all.
pub fn walk(words: &[u16], from: usize) {
    for span in RuleWalk::start(words).take(MOST_HANDED).skip(from) {
        print_span(span);
    }
    print::text(b" rules");
    print::number(RuleWalk::start(words).take(MOST_HANDED).count());
}

// A rule's number, left side, count and index of the first symbol.
fn print_span(span: RuleSpan) {
    print::text(b" rule");
    print::number(span.number);
    print::number(span.left);
    print::number(span.count);
    print::number(span.first);
    print::text(b",");
}
