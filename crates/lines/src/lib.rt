// The lines that the suite program prints, written into a lent buffer from an index on, as far as there is room; each function
// answers the index past what it wrote. The text of each line is specs/Lines; what the buffer holds afterwards, and the index,
// are specs/Room.
// The buffer and the index come as two: the promise `LineWritten` of each public function is of both, before and after.
#![tactic(auto)]

ghost use Rattle.std.specs.Prelude.{◌≡◌, ◌∷◌, ◌++◌, [], ◌<◌, length};
ghost use Rattle.lines.specs.Digits.{digit, decimal};
ghost use Rattle.lines.specs.Lines.{space, spaced, suite_line, sentence_line, end_line, refused_line};
ghost use Rattle.lines.specs.Room.{LineWritten};

const SPACE: u8 = b' ';

const LINE_END: u8 = b'\n';

const ZERO: u8 = b'0';

// Writes one octet at an index; past the end nothing.
fn put(octet: u8, text: &mut [u8], at: usize) -> usize
    ensures { LineWritten (octet ∷ []) text.old at text.new result }
{
    if at < text.len() {
        text[at] = octet;
        at + 1
    } else {
        at
    }
}

// Writes octets as they are.
fn word(octets: &[u8], text: &mut [u8], at: usize) -> usize
    ensures { LineWritten octets.now text.old at text.new result }
{
    let mut past = at;
    for octet in octets {
        past = put(*octet, text, past);
    }
    past
}

fn glyph(d: usize) -> u8
    requires { d < 10 }
    ensures { result ≡ digit d }
{
    ZERO + d as u8
}

// Writes the digits of n: those before the last one first.
// By hand: the promise LineWritten (decimal n) is of digits in a lent buffer, as far as there is room.
fn digits(n: usize, text: &mut [u8], at: usize) -> usize
    ensures { LineWritten (decimal n) text.old at text.new result }
{
    if n < 10 {
        return put(glyph(n), text, at);
    }
    let past = digits(n / 10, text, at);
    put(glyph(n % 10), text, past)
}

// Writes a space and a number.
fn number(n: usize, text: &mut [u8], at: usize) -> usize
    ensures { LineWritten (space ∷ decimal n) text.old at text.new result }
{
    let past = put(SPACE, text, at);
    digits(n, text, past)
}

// Writes a space and a number for each of the list.
fn numbers(list: &[u16], text: &mut [u8], at: usize) -> usize
    ensures { LineWritten (spaced list.now) text.old at text.new result }
{
    let mut past = at;
    for n in list {
        past = number(usize::from(*n), text, past);
    }
    past
}

// Writes how many the list has, and then them.
fn counted(list: &[u16], text: &mut [u8], at: usize) -> usize
    ensures { LineWritten (spaced (length list.now ∷ list.now)) text.old at
        text.new result }
{
    let past = number(list.len(), text, at);
    numbers(list, text, past)
}

// The first line: the numbers of nonterminals, terminals and rules.
pub fn suite(
    nonterminals: usize,
    terminals: usize,
    rules: usize,
    text: &mut [u8],
    at: usize,
) -> usize
    ensures { LineWritten (suite_line nonterminals terminals rules) text.old at text.new result }
{
    let worded = word(b"suite", text, at);
    let first = number(nonterminals, text, worded);
    let second = number(terminals, text, first);
    let third = number(rules, text, second);
    put(LINE_END, text, third)
}

// A sentence's line: the target, the tokens with their count, the rule numbers with theirs.
pub fn sentence(target: usize, tokens: &[u16], rules: &[u16], text: &mut [u8], at: usize) -> usize
    ensures { LineWritten (sentence_line target tokens.now rules.now) text.old at
        text.new result }
{
    let first = digits(target, text, at);
    let second = counted(tokens, text, first);
    let third = counted(rules, text, second);
    put(LINE_END, text, third)
}

// The last line: how many sentences there were.
pub fn end(count: usize, text: &mut [u8], at: usize) -> usize
    ensures { LineWritten (end_line count) text.old at text.new result }
{
    let worded = word(b"end", text, at);
    let first = number(count, text, worded);
    put(LINE_END, text, first)
}

// The one line of a refused file.
pub fn refused(refusal: u16, place: usize, text: &mut [u8], at: usize) -> usize
    ensures { LineWritten (refused_line refusal place) text.old at text.new result }
{
    let worded = word(b"refused", text, at);
    let first = number(usize::from(refusal), text, worded);
    let second = number(place, text, first);
    put(LINE_END, text, second)
}
