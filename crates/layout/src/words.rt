// The words as numbers: what crate cells reads, as a number. The name stays, as docs/SETTLED.md has it (`word_settles`).
ghost use Rattle.std.specs.Prelude.{◌≡◌, get_or};

// The word at index i, and 0 past the end.
pub fn word(words: &[u16], i: usize) -> usize
    ensures { result ≡ get_or words.now i 0 }
{
    usize::from(cells::read(words, i))
}
