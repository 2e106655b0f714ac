// The four numbers of an answer: a function for each kind of answer, and one for each family. What they are is specs/Numbers.
// Document 01 names an enum for each family, and so there is a `match` for each.
// A length is made a u64 by `as`: there is no From<usize> for u64.
ghost use Rattle.std.specs.Prelude.{◌≡◌};
ghost use Rattle.calls.specs.Numbers.{done, next, finished, refused, of_file, of_table, of_next, of_replay};

use handout::NextAnswer;
use packed::FileAnswer;
use replay::ReplayAnswer;
use tables::TableAnswer;

// The kinds of answer, in the order of their numbers in include/vanchiluk.h.
#[derive(Clone, Copy, Debug, PartialEq, Eq)]
enum Kind {
    Done,
    Next,
    Finished,
    Refused,
}

fn done(length: usize) -> [u64; 4]
    ensures { result ≡ done length }
{
    [Kind::Done as u64, length as u64, 0, 0]
}

fn next(target: usize, tokens: usize, rules: usize) -> [u64; 4]
    ensures { result ≡ next target tokens rules }
{
    [
        Kind::Next as u64,
        target as u64,
        tokens as u64,
        rules as u64,
    ]
}

fn finished() -> [u64; 4]
    ensures { result ≡ finished }
{
    [Kind::Finished as u64, 0, 0, 0]
}

fn refused(number: u16, place: usize) -> [u64; 4]
    ensures { result ≡ refused number place }
{
    [Kind::Refused as u64, u64::from(number), place as u64, 0]
}

pub fn of_file(answer: FileAnswer) -> [u64; 4]
    ensures { result ≡ of_file answer }
{
    match answer {
        FileAnswer::Done(length) => done(length),
        FileAnswer::Refused { number, place } => refused(number, place),
    }
}

pub fn of_table(answer: TableAnswer) -> [u64; 4]
    ensures { result ≡ of_table answer }
{
    match answer {
        TableAnswer::Done(length) => done(length),
        TableAnswer::Refused { number, place } => refused(number, place),
    }
}

pub fn of_next(answer: NextAnswer) -> [u64; 4]
    ensures { result ≡ of_next answer }
{
    match answer {
        NextAnswer::Next {
            target,
            tokens,
            rules,
        } => next(target, tokens, rules),
        NextAnswer::Finished => finished(),
        NextAnswer::Refused { number, place } => refused(number, place),
    }
}

pub fn of_replay(answer: ReplayAnswer) -> [u64; 4]
    ensures { result ≡ of_replay answer }
{
    match answer {
        ReplayAnswer::Done(length) => done(length),
        ReplayAnswer::Refused { number, place } => refused(number, place),
    }
}
