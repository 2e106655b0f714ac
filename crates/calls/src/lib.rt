// The five calls for programs in other languages: `rt lib` here writes an archive that C, Rust, Fortran or Python link, and
// include/vanchiluk.h declares what stands in it. Each slice passes as a pointer and a length, counted in its elements; `answer`
// points at four 64-bit numbers: the answer's kind, its values, and zeros (specs/Numbers).
//
// A caller in another language owes what its slices say, and nothing checks it: each pointer is to so many elements, not null
// even for none, and what is written through one overlaps nothing else that is lent. No call keeps anything, and no two calls
// share anything.
#![tactic(auto)]

mod numbers;

ghost use Rattle.calls.specs.Called.{UnpackCalled, PackCalled, TablesCalled, NextCalled, ReplayCalled};
ghost use Rattle.handout.specs.Next.{Lent};

// File to words.
#[unsafe(no_mangle)]
pub extern "C" fn vanchiluk_unpack(file: &[u8], words: &mut [u16], answer: &mut [u64; 4])
    ensures { UnpackCalled file.now words.old answer.new words.new }
{
    *answer = numbers::of_file(packed::unpack(file, words));
}

// Words to file.
#[unsafe(no_mangle)]
pub extern "C" fn vanchiluk_pack(words: &[u16], file: &mut [u8], answer: &mut [u64; 4])
    ensures { PackCalled words.now file.old answer.new file.new }
{
    *answer = numbers::of_file(packed::pack(words, file));
}

// Words to table.
#[unsafe(no_mangle)]
pub extern "C" fn vanchiluk_tables(words: &[u16], table: &mut [u16], answer: &mut [u64; 4])
    ensures { TablesCalled words.now table.old answer.new table.new }
{
    *answer = numbers::of_table(tables::tables(words, table));
}

// The sentence of the lowest unused rule, its derivation, and the marks.
#[unsafe(no_mangle)]
pub extern "C" fn vanchiluk_next(
    words: &[u16],
    table: &[u16],
    marks: &mut [u8],
    sentence: &mut [u16],
    derivation: &mut [u16],
    answer: &mut [u64; 4],
)
    ensures { NextCalled words.now table.now
        (record { marks = marks.old; tokens = sentence.old; rules = derivation.old })
        answer.new
        (record { marks = marks.new; tokens = sentence.new; rules = derivation.new }) }
{
    *answer = numbers::of_next(handout::next(words, table, marks, sentence, derivation));
}

// Rule numbers to the sentence of their leftmost derivation.
#[unsafe(no_mangle)]
pub extern "C" fn vanchiluk_replay(
    words: &[u16],
    list: &[u16],
    sentence: &mut [u16],
    answer: &mut [u64; 4],
)
    ensures { ReplayCalled words.now list.now sentence.old answer.new
        sentence.new }
{
    *answer = numbers::of_replay(replay::replay(words, list, sentence));
}
