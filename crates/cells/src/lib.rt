// One word of lent memory, read and written where there is such an index; and a number as a word, and back. Assumes nothing.
#![tactic(auto)]

ghost use Rattle.std.specs.Prelude.{◌≡◌, ◌≤◌, ◌%◌, get_or, set};

// The word at index i, and 0 past the end.
pub fn read(part: &[u16], i: usize) -> u16
    ensures { result ≡ get_or part.now i 0 }
{
    part.get(i).copied().unwrap_or(0)
}

// Writes v at index i; past the end nothing. By index: of what is written through `get_mut` a proof knows the length alone (tried).
pub fn put(part: &mut [u16], i: usize, v: u16)
    ensures { part.new ≡ set part.old i v }
{
    if i < part.len() {
        part[i] = v;
    }
}

// The number as a word: itself up to 65,535, and above that, where `TryFrom` has no word, what is left over by 65,536.
pub fn narrow(x: usize) -> u16
    ensures { (result ≡ x % 65536) × (x ≤ 65535 → result ≡ x) }
{
    (x % 65536) as u16
}

// The word as a number: `usize::from` under the name that docs/SETTLED.md gives it (`wide_settles`); nobody here calls it.
pub fn wide(x: u16) -> usize
    ensures { result ≡ x }
{
    usize::from(x)
}
