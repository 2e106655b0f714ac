// What is left of a form while it is opened from the left: of the right side that is read, where the next symbol is and how many
// are left; the rests of others wait on a stack, and a rest of nothing does not wait. By which rule a symbol is opened is for
// `derivation` to say.
ghost use Rattle.std.specs.Prelude.{◌≡◌, ◌+◌, ◌≤◌, ◌<◌, length};
ghost use Rattle.replay.specs.Forms.{waiting_above, InFront, StoredTokens, Passing, Passed, Openable, Opened};

// What waits of a right side: where the next symbol is, and how many are left.
#[derive(Clone, Copy, Default)]
pub struct Rest {
    pub at: u16,
    pub left: u16,
}

// Of the right side that is read, where the next symbol is and how many are left; how many others wait; with it how many rules
// are used and how many tokens are passed.
// How many wait stands beside the stack, as that is fixed memory which is lent: nothing is allocated.
#[derive(Clone, Copy)]
pub struct Open {
    pub at: usize,
    pub left: usize,
    pub depth: usize,
    pub next: usize,
    pub tokens: usize,
}

impl Open {
    // Passes the tokens in front; they are stored as far as there is room.
    pub fn pass_tokens(self, words: &[u16], nonterminals: u16, sentence: &mut [u16]) -> Open
        requires { Passing words.now self }
        ensures { Passed words.now nonterminals self sentence.old result sentence.new }
    {
        let side = &words[self.at..self.at + self.left];
        let count = if sentence.len() < self.tokens + self.left {
            store_tokens(side, nonterminals, sentence, self.tokens)
        } else {
            store_all(side, nonterminals, sentence, self.tokens)
        };
        Open {
            at: self.at + count,
            left: self.left - count,
            tokens: self.tokens + count,
            ..self
        }
    }

    // The innermost right side that waits.
    pub fn above(self, stack: &[Rest]) -> Open
        requires { (0 < self.depth) × (self.depth ≤ length stack.now) }
        ensures { result ≡ waiting_above stack.now self }
    {
        let depth = self.depth - 1;
        Open {
            at: usize::from(stack[depth].at),
            left: usize::from(stack[depth].left),
            depth,
            ..self
        }
    }

    // Opens the next symbol by the rule at an index. What is left behind the symbol waits, if anything is.
    pub fn open_rule(self, words: &[u16], at: usize, stack: &mut [Rest]) -> Open
        requires { Openable words.now at stack.old self }
        ensures { Opened words.now at stack.old self stack.new result }
    {
        let opened = Open {
            at: at + 2,
            left: usize::from(words[at + 1]),
            next: self.next + 1,
            ..self
        };
        if self.left == 1 {
            return opened;
        }
        stack[self.depth] = Rest {
            at: (self.at + 1) as u16,
            left: (self.left - 1) as u16,
        };
        Open {
            depth: self.depth + 1,
            ..opened
        }
    }
}

// Stores the symbols in front that are tokens, from an index of the sentence on, and counts them; there is room for all.
// Apart from `store_tokens`, which with room for all asks twice what is asked once here: replays that nest took 1.4 times as long.
fn store_all(symbols: &[u16], nonterminals: u16, sentence: &mut [u16], from: usize) -> usize
    requires { from + length symbols.now ≤ length sentence.old }
    ensures { StoredTokens symbols.now nonterminals sentence.old from result sentence.new }
{
    for i in 0..symbols.len() {
        if symbols[i] < nonterminals {
            return i;
        }
        sentence[from + i] = symbols[i];
    }
    symbols.len()
}

// Stores the symbols in front that are tokens, from an index of the sentence on and as far as there is room, and counts them.
// Tried: count, then `copy_from_slice`, a call for each side. Replays that nest took 1.7 times what the reference takes.
fn store_tokens(symbols: &[u16], nonterminals: u16, sentence: &mut [u16], from: usize) -> usize
    requires { from + length symbols.now ≤ 4294967295 }
    ensures { StoredTokens symbols.now nonterminals sentence.old from result sentence.new }
{
    let room = sentence.len().saturating_sub(from).min(symbols.len());
    for i in 0..room {
        if symbols[i] < nonterminals {
            return i;
        }
        sentence[from + i] = symbols[i];
    }
    room + tokens_in_front(&symbols[room..], nonterminals)
}

// How many symbols in front are tokens.
fn tokens_in_front(symbols: &[u16], nonterminals: u16) -> usize
    ensures { InFront symbols.now nonterminals result }
{
    symbols
        .iter()
        .position(|symbol| *symbol < nonterminals)
        .unwrap_or(symbols.len())
}
