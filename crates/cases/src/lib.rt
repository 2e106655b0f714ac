// What the programs that run the proved calls have in common but for printing: cases written as text, one a line; the parts of
// a line, and the numbers that a part spells; and what lent buffers hold. Of these functions only bounds are promised: a program's
// output is held to what the document asks, and shows a case that is read wrong.
#![tactic(auto)]

ghost use Rattle.std.specs.Prelude.{◌-◌, ◌≤◌, length};
ghost use Rattle.std.specs.Iterator.{at_most};

mod buffers;
mod number;

pub use buffers::{UNTOUCHED, every, front, front_mut, untouched};
use number::first;
pub use number::{MOST_SPELLED, numbers, octets};

// The file that is standard input.
const STDIN: i32 = 0;

// More octets than any program has on standard input.
pub const MOST_TEXT: usize = 262144;

// All of standard input, read into a lent buffer. Where that is filled there may be more: then a line says so, and nothing is read.
pub fn read(buffer: &mut [u8]) -> &[u8] {
    let length = io::read_full(STDIN, buffer);
    if length == buffer.len() {
        print::text(b"input too long\n");
        return &[];
    }
    &buffer[..length]
}

// The cases of a text, in the order of its lines; a line without a case is passed over. An iterator, over which each program has a loop
// of its own: a call that took the loop's body would need a `requires`, and no public function of a library has one.
#[derive(Drop)]
pub struct Cases<'a> {
    rest: &'a [u8],
}

pub fn each(text: &[u8]) -> Cases<'_> {
    Cases { rest: text }
}

impl<'a> Iterator for Cases<'a> {
    type Item = &'a [u8];

    ghost remaining = { λ s. at_most (length s.rest.now) };

    fn next(&mut self) -> Option<&'a [u8]> {
        while !self.rest.is_empty() {
            let case = first_case(self.rest);
            self.rest = later_lines(self.rest);
            if !case.is_empty() {
                return Some(case);
            }
        }
        None
    }
}

// The case in the first line of a text: the line without its comment, which begins at #, and without the blanks before that.
fn first_case(text: &[u8]) -> &[u8] {
    let line = before(before(text, b'\n'), b'#');
    let last = line.iter().rposition(|octet| *octet != b' ');
    &line[..last.map_or(0, |i| i + 1)]
}

// The lines after the first.
fn later_lines(text: &[u8]) -> &[u8]
    ensures { length result.now ≤ length text.now - 1 }
{
    let end = find(text, b'\n');
    if end < text.len() {
        &text[end + 1..]
    } else {
        &[]
    }
}

// The number before the colon of a case.
pub fn room(case: &[u8]) -> usize {
    first(before(case, b':'))
}

// The text between the colon of a case and its equals sign.
pub fn given(case: &[u8]) -> &[u8] {
    from(before(case, b'='), b':')
}

// The text after the equals sign of a case.
pub fn wanted(case: &[u8]) -> &[u8] {
    from(case, b'=')
}

// The text before the first mark; all of it where there is none.
pub fn before(text: &[u8], mark: u8) -> &[u8] {
    &text[..find(text, mark)]
}

// The text from the first mark on; nothing where there is none.
pub fn from(text: &[u8], mark: u8) -> &[u8] {
    &text[find(text, mark)..]
}

// The index of the first mark, or the length where there is none.
fn find(text: &[u8], mark: u8) -> usize
    ensures { result ≤ length text.now }
{
    text.iter()
        .position(|octet| *octet == mark)
        .unwrap_or(text.len())
}
