// The rules of grammar words by number: where each stands, as `judge::read` tells it, and its right side.
ghost use Rattle.std.specs.Prelude.{◌≡◌, ◌≤◌, ◌<◌, length, get_or};
ghost use Rattle.layout.specs.Rules.{right_at};

use crate::words::word;

// The index of the rule of a number, where the places were found; 0 past the last of them. The name stays for `index_settles`.
pub fn index(places: &[u16], number: usize) -> usize
    ensures { result ≡ get_or places.now number 0 }
{
    word(places, number)
}

// The symbols of the rule whose left side is at an index; none where no whole rule stands there.
pub fn right(words: &[u16], at: usize) -> &[u16]
    ensures result_value { result.now ≡ right_at words.now at }
    ensures result_len_bound { length result.now ≤ 65535 }
{
    let len = words.len();
    if len < 2 {
        return &words[..0];
    }
    if len - 2 < at {
        return &words[..0];
    }
    let first = at + 2;
    let count = word(words, at + 1);
    if len - first < count {
        return &words[..0];
    }
    let end = first + count;
    &words[first..end]
}
