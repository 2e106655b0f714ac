// Numbers, in decimal and of at most six digits; whatever is neither a digit nor a sign of a form stands between them.
// A form spells N numbers:
//     N*W   each is W
//     N+W   they are W, W + 1 and so on
//     N&W   they are the octets of the words W, W + 1 and so on, two for each, the high one first
//     N<B   each is the number that stands B before it
ghost use Rattle.std.specs.Prelude.{◌≤◌, length};

use crate::buffers::front_mut;

// The most numbers that a part of a case spells.
pub const MOST_SPELLED: usize = 65538;

// Which numbers a form spells.
#[derive(Clone, Copy)]
enum Sign {
    Times,
    Plus,
    Octets,
    Before,
}

impl Sign {
    // The sign that an octet is; none where it is no sign.
    fn of(octet: u8) -> Option<Self> {
        match octet {
            b'*' => Some(Self::Times),
            b'+' => Some(Self::Plus),
            b'&' => Some(Self::Octets),
            b'<' => Some(Self::Before),
            _ => None,
        }
    }
}

// What has been read of a form: N, its sign, and the number after it. A number alone is a form too, 1*W.
#[derive(Clone, Copy)]
struct Form {
    many: usize,
    sign: Sign,
    number: usize,
}

impl Form {
    // A form of which only its sign has been read.
    fn begun(many: usize, sign: Sign) -> Self {
        Self {
            many,
            sign,
            number: 0,
        }
    }

    // The form with a digit more.
    fn with_digit(self, digit: u8) -> Self {
        Self {
            number: self.number % 100000 * 10 + usize::from(digit),
            ..self
        }
    }

    // Its i-th number, counted from 0; earlier is the number that stands B before.
    fn spelled(self, i: usize, earlier: u16) -> u16 {
        match self.sign {
            Sign::Times => counted(self.number, 0),
            Sign::Plus => counted(self.number, i),
            Sign::Octets => octet(counted(self.number, i / 2), i % 2),
            Sign::Before => earlier,
        }
    }
}

// What has been read with an octet more: the form with a digit or a sign, and nothing where any other octet ends it.
fn read_on(read: Option<Form>, octet: u8) -> Option<Form> {
    if let Some(sign) = Sign::of(octet) {
        let many = read.map_or(0, |form| form.number);
        return Some(Form::begun(many, sign));
    }
    if !octet.is_ascii_digit() {
        return None;
    }
    let form = read.unwrap_or(Form::begun(1, Sign::Times));
    Some(form.with_digit(octet - b'0'))
}

// The word that stands i after a number.
fn counted(number: usize, i: usize) -> u16 {
    (number.wrapping_add(i) % 65536) as u16
}

// A word's high octet, and its low one.
fn octet(word: u16, i: usize) -> u16 {
    let [high, low] = word.to_be_bytes();
    u16::from(if i == 0 { high } else { low })
}

// The number that stands some way before an index; 0 where none does.
fn earlier(numbers: &[u16], at: usize, back: usize) -> u16 {
    let Some(i) = at.checked_sub(back) else {
        return 0;
    };
    numbers.get(i).copied().unwrap_or(0)
}

// Writes a form's numbers into out from an index on, as many as there is room for. The answer is the index past them.
fn write(form: Form, out: &mut [u16], from: usize) -> usize
    requires { from ≤ length out.old }
    ensures { result ≤ length out.new }
{
    let end = from + form.many.min(out.len() - from);
    for at in from..end {
        out[at] = form.spelled(at - from, earlier(out, at, form.number));
    }
    end
}

// Writes the numbers that a text spells into the front of out, as many as there is room for. The answer is that front.
pub fn numbers<'a>(text: &[u8], out: &'a mut [u16]) -> &'a [u16]
    ensures { length result.now ≤ length out.old }
{
    let mut read = None;
    let mut count = 0;
    for octet in text {
        let more = read_on(read, *octet);
        if let (Some(form), None) = (read, more) {
            count = write(form, out, count);
        }
        read = more;
    }
    if let Some(form) = read {
        count = write(form, out, count);
    }
    &out[..count]
}

// Writes the numbers that a text spells, each below 256, into the front of out, as many as there is room for. The answer is the
// front that was written.
pub fn octets<'a>(text: &[u8], out: &'a mut [u8]) -> &'a mut [u8] {
    let mut words = [0; MOST_SPELLED];
    let spelled = numbers(text, &mut words);
    for (octet, number) in out.iter_mut().zip(spelled) {
        *octet = (*number % 256) as u8;
    }
    front_mut(out, spelled.len())
}

// The first number that a text spells, and 0 where it spells none.
pub fn first(text: &[u8]) -> usize {
    let mut one = [0; 1];
    numbers(text, &mut one);
    usize::from(one[0])
}
