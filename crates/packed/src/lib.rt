// The packed grammar file: version octet 1, the number of octets that follow as two octets, then each word as two
// octets, high octet first. `unpack` reads a file into words, and `pack` writes words as a file. Neither looks at
// grammar shape, and neither has a `requires`: what the input can break is answered by a refusal, which changes no
// buffer.
#![tactic(auto)]

ghost use Rattle.std.specs.Prelude.{◌≡◌, ◌*◌, length};
ghost use Rattle.packed.specs.File.{words_of, octets_of};
ghost use Rattle.packed.specs.Answers.{told};
ghost use Rattle.packed.specs.Promise.{Unpacked, Packed};
ghost use Rattle.packed.specs.Judged.{Judged};

use answers::Refusal;

// What both answer: the length written, or the refusal's number and place.
// Document 01 names this form, one enum for each call family; inside the crate an outcome is a Result.
#[derive(Clone, Copy, Debug, PartialEq, Eq)]
pub enum FileAnswer {
    Done(usize),
    Refused { number: u16, place: usize },
}

// The other families have the same: document 01 names an enum for each.
impl From<Result<usize, Refusal>> for FileAnswer {
    ghost from_gives = { λ outcome answer. answer ≡ told outcome };

    fn from(outcome: Result<usize, Refusal>) -> FileAnswer {
        match outcome {
            Ok(length) => FileAnswer::Done(length),
            Err(refusal) => FileAnswer::Refused {
                number: refusal.number(),
                place: refusal.place(),
            },
        }
    }
}

const VERSION: u8 = 1;

// Where the length stands in a file: the place of refusal 2 of unpack.
const LENGTH_PLACE: usize = 1;

// The octets before the first word.
const HEADER: usize = 3;

// The most words that a file can hold, and the most octets after its header: two for each word.
const MOST_WORDS: usize = 8707;

const MOST_OCTETS: usize = 2 * MOST_WORDS;

// How many words are taken at once, the last ones of a file. All are read before one is written, and so the compiler takes them as
// one, and need not ask whether what is lent overlaps; nor is there a rest to take singly.
// Without it unpack and pack of D took 1.09 and 1.12 of the reference's time, and with it 0.96 and 0.97.
const BLOCK: usize = 8;

const BLOCK_OCTETS: usize = 2 * BLOCK;

// Judges the file alone: Ok carries how many words it holds.
#[tactic(auto, using(crate::proofs::RowsReached::judge_rows))]
fn judge(file: &[u8]) -> Result<usize, Refusal>
    ensures { Judged file.now (told result) }
{
    if file.first() != Some(&VERSION) {
        return Err(Refusal::NotVersionOne);
    }
    let [_, high, low, octets @ ..] = file else {
        return Err(Refusal::BadLength {
            place: LENGTH_PLACE,
        });
    };
    let said = usize::from(u16::from_be_bytes([*high, *low]));
    if said != octets.len() || said % 2 != 0 || MOST_OCTETS < said {
        return Err(Refusal::BadLength {
            place: LENGTH_PLACE,
        });
    }
    Ok(said / 2)
}

// Reads the words that octets spell, one after the other.
// By the index: `words.iter_mut().zip(octets.chunks_exact(2))` was tried, and the proof didn't close.
#[tactic(auto, using(crate::proofs::WordsAndOctets::words_of_each))]
fn read_each(octets: &[u8], words: &mut [u16])
    requires { length octets.now ≡ 2 * length words.old }
    ensures { words.new ≡ words_of octets.now }
{
    for (i, word) in words.iter_mut().enumerate() {
        *word = u16::from_be_bytes([octets[2 * i], octets[2 * i + 1]]);
    }
}

// Reads the words that octets spell. Those before the last block are read as whole blocks: the last one may begin inside them, and
// reads some words again.
fn read_words(octets: &[u8], words: &mut [u16])
    requires { length octets.now ≡ 2 * length words.old }
    ensures { words.new ≡ words_of octets.now }
{
    let Some(&block) = octets.last_chunk::<BLOCK_OCTETS>() else {
        read_each(octets, words);
        return;
    };
    let last = words.len() - BLOCK;
    let front = last.next_multiple_of(BLOCK);
    read_each(&octets[..2 * front], &mut words[..front]);
    read_each(&block, &mut words[last..]);
}

// Reads a file into words, or says which row refuses it. Ok carries how many words were written.
#[tactic(auto, using(crate::proofs::RowsReached::read_file_rows))]
fn read_file(file: &[u8], words: &mut [u16]) -> Result<usize, Refusal>
    ensures { Unpacked file.now words.old (told result) words.new }
{
    let count = judge(file)?;
    if words.len() < count {
        return Err(Refusal::TooShort { needed: count });
    }
    read_words(&file[HEADER..], &mut words[..count]);
    Ok(count)
}

// Reads a file into words. Done carries how many words were written.
pub fn unpack(file: &[u8], words: &mut [u16]) -> FileAnswer
    ensures { Unpacked file.now words.old result words.new }
{
    FileAnswer::from(read_file(file, words))
}

// Writes the two octets of each word, one word after the other.
// By the index: elements written through `chunks_exact_mut` are unknown to a proof (Rattle's docs/NOT_COVERED.md).
#[tactic(auto, using(crate::proofs::WordsAndOctets::octets_of_each))]
fn write_each(words: &[u16], octets: &mut [u8])
    requires { length octets.old ≡ 2 * length words.now }
    ensures { octets.new ≡ octets_of words.now }
{
    for (i, word) in words.iter().enumerate() {
        octets[2 * i..2 * i + 2].copy_from_slice(&word.to_be_bytes());
    }
}

// Writes the two octets of each word, as `read_words` reads them.
#[tactic(auto, using(crate::proofs::LastBlock::last_block))]
fn write_words(words: &[u16], octets: &mut [u8])
    requires { length octets.old ≡ 2 * length words.now }
    ensures { octets.new ≡ octets_of words.now }
{
    let Some(&block) = words.last_chunk::<BLOCK>() else {
        write_each(words, octets);
        return;
    };
    let last = words.len() - BLOCK;
    let front = last.next_multiple_of(BLOCK);
    write_each(&words[..front], &mut octets[..2 * front]);
    write_each(&block, &mut octets[2 * last..]);
}

// Writes words as a file, or says which row refuses them. Ok carries how many octets were written.
#[tactic(auto, using(crate::proofs::RowsReached::write_file_rows))]
fn write_file(words: &[u16], file: &mut [u8]) -> Result<usize, Refusal>
    ensures { Packed words.now file.old (told result) file.new }
{
    let count = words.len();
    if MOST_WORDS < count {
        return Err(Refusal::BadLength { place: MOST_WORDS });
    }
    let needed = HEADER + 2 * count;
    if file.len() < needed {
        return Err(Refusal::TooShort { needed });
    }
    let [high, low] = ((2 * count) as u16).to_be_bytes();
    file[..HEADER].copy_from_slice(&[VERSION, high, low]);
    write_words(words, &mut file[HEADER..needed]);
    Ok(needed)
}

// Writes words as a file. Done carries how many octets were written.
pub fn pack(words: &[u16], file: &mut [u8]) -> FileAnswer
    ensures { Packed words.now file.old result file.new }
{
    FileAnswer::from(write_file(words, file))
}
