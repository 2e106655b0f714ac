// Buffers that are lent to a call: their front parts, and what they hold afterwards.

ghost use Rattle.std.specs.Prelude.{◌≤◌, length};

// What a buffer holds everywhere before a call: a number that no table, no token and no rule has.
pub const UNTOUCHED: u16 = 50505;

// As many words or octets from the first on, or all where there are fewer.
pub fn front<T>(buffer: &[T], count: usize) -> &[T]
    ensures { length result.now ≤ count }
{
    &buffer[..count.min(buffer.len())]
}

// The same part, to be lent.
pub fn front_mut<T>(buffer: &mut [T], count: usize) -> &mut [T]
    ensures { length result.now ≤ count }
{
    let end = count.min(buffer.len());
    &mut buffer[..end]
}

// Whether nothing was written from an index on.
pub fn untouched(words: &[u16], from: usize) -> bool {
    every(words, from, UNTOUCHED)
}

// Whether every word from an index on is this one.
pub fn every(words: &[u16], from: usize, this: u16) -> bool {
    words.iter().skip(from).all(|word| *word == this)
}
