// The suite program: a packed grammar file from standard input, and on standard output a line for each sentence that
// `handout::next` hands out from clear marks, until every rule has been used; a refused file gives one line. What a line is
// stands in crates/lines. The text comes in pieces, each of as many lines as surely fit: `first_piece` and then `next_piece` fill
// a buffer and say how much of it is to be written, and that the pieces joined are the document's text of the input is proved
// (`whole_text`). Only `print_pieces` writes. A read that fails is the end of the input; after a write that fails nothing more is
// written.
#![tactic(auto)]

ghost use Rattle.std.specs.Prelude.{◌≤◌, ◌≡◌, false, length};
ghost use Rattle.entries.specs.Table.{most_table};
ghost use Rattle.handout.specs.Next.{Lent};
ghost use Rattle.lines.specs.Lines.{most_line};
ghost use Rattle.suite.specs.Answered.{LineEnded, Answered};
ghost use Rattle.suite.specs.Begun.{OneLine, FirstLine, OfWords, TextBegun};
ghost use Rattle.suite.specs.Filled.{Waits, Filled};
ghost use Rattle.suite.specs.Pieces.{Clear, Large, FirstPiece, PieceReached, NextPiece, Made};

use answers::Refusal;
use entries::{LIMIT, MOST_TABLE};
use handout::NextAnswer;
use layout::judge;
use packed::FileAnswer;
use tables::TableAnswer;

// The files that are standard input and standard output.
const STDIN: i32 = 0;

const STDOUT: i32 = 1;

// "The program reads at most 17,418 octets": one more than the longest file has.
const MOST_READ: usize = 17418;

// The most words of a file and the most rules: with these, and those of a table and of a sentence, no call is refused for room.
const MOST_WORDS: usize = 8707;

const MOST_RULES: usize = 256;

// The most octets of a line (`sentence_few` and the others of crates/lines).
const MOST_LINE: usize = 24594;

// How far the text is: how many words the grammar has, how many sentences there were, how many octets of the buffer are the piece,
// and whether it is the last. Flag and lengths stay beside the buffers:
// the promises of specs/Pieces (SoFar, FirstPiece, NextPiece) are of slices that are long enough, and so are the clauses below.
#[derive(Clone, Copy, Debug, PartialEq, Eq)]
struct Piece {
    words: usize,
    count: usize,
    length: usize,
    over: bool,
}

fn main() {
    let mut file = [0u8; MOST_READ];
    let length = io::read_full(STDIN, &mut file);
    let mut text = io::large_buffer();
    print_pieces(&file[..length], &mut text);
}

// Calls for the pieces, one after the other, and writes each.
fn print_pieces(file: &[u8], text: &mut [u8])
    requires { most_line ≤ length text.old }
{
    let mut words = [0u16; MOST_WORDS];
    let mut table = [0u16; MOST_TABLE];
    let mut marks = [0u8; MOST_RULES];
    let mut so = first_piece(file, &mut words, &mut table, &mut marks, text);
    let mut end = so.length;
    let mut is_written = print(&text[..end]);
    while is_written && !so.over {
        so = next_piece(&words, &table, &mut marks, text, so);
        end = so.length;
        is_written = print(&text[..end]);
    }
}

// Writes a piece, and answers whether that succeeded.
fn print(piece: &[u8]) -> bool
    requires { Made piece.now }
{
    io::write_all(STDOUT, piece)
}

// The first piece of a file's text, from clear marks: the line of a refused file, or the first line and what fits behind it.
fn first_piece(
    file: &[u8],
    words: &mut [u16],
    table: &mut [u16],
    marks: &mut [u8],
    text: &mut [u8],
) -> Piece
    requires in_bounds { (8707 ≤ length words.old) × (most_table ≤ length table.old) }
    requires large { Large marks.old text.old }
    requires clear { Clear file.now marks.old }
    ensures { FirstPiece file.now words.new table.new marks.new
        text.new result }
{
    let begun = begin(file, words, table, text);
    let count = begun.words;
    fill(&words[..count], table, marks, text, begun)
}

// The next piece, after those that lead to here.
fn next_piece(words: &[u16], table: &[u16], marks: &mut [u8], text: &mut [u8], so: Piece) -> Piece
    requires large { Large marks.old text.old }
    requires piece_reached { PieceReached words.now table.now marks.old so }
    requires over_value { so.over ≡ false }
    ensures { NextPiece words.now table.now marks.old marks.new
        text.new so result }
{
    let count = so.words;
    fill(
        &words[..count],
        table,
        marks,
        text,
        Piece {
            length: 0,
            over: false,
            ..so
        },
    )
}

// Puts line after line behind what waits, while the longest one surely fits.
fn fill(words: &[u16], table: &[u16], marks: &mut [u8], text: &mut [u8], begun: Piece) -> Piece
    requires large { Large marks.old text.old }
    requires waits { Waits words.now table.now marks.old text.old begun }
    ensures { Filled words.now table.now marks.old marks.new
        text.old text.new begun result }
{
    let mut sentence = [0u16; LIMIT];
    let mut derivation = [0u16; LIMIT];
    let mut so = begun;
    while !so.over && MOST_LINE <= text.len() - so.length {
        so = answered(
            words,
            table,
            marks,
            &mut sentence,
            &mut derivation,
            text,
            so,
        );
    }
    so
}

// One call of `next`, and the line for what it answers behind what waits.
fn answered(
    words: &[u16],
    table: &[u16],
    marks: &mut [u8],
    sentence: &mut [u16],
    derivation: &mut [u16],
    text: &mut [u8],
    so: Piece,
) -> Piece
    requires { so.count ≤ 256 }
    ensures { Answered words.now table.now
        (record { marks = marks.old; tokens = sentence.old; rules = derivation.old })
        (record { marks = marks.new; tokens = sentence.new; rules = derivation.new })
        text.old text.new so result }
{
    match handout::next(words, table, marks, sentence, derivation) {
        NextAnswer::Next {
            target,
            tokens,
            rules,
        } => Piece {
            count: so.count + 1,
            length: lines::sentence(
                target,
                &sentence[..tokens],
                &derivation[..rules],
                text,
                so.length,
            ),
            over: false,
            ..so
        },
        NextAnswer::Finished => ended(text, so),
        NextAnswer::Refused { number, place } => Piece {
            length: lines::refused(number, place, text, so.length),
            over: true,
            ..so
        },
    }
}

// The last line, behind what waits.
fn ended(text: &mut [u8], so: Piece) -> Piece
    ensures { LineEnded text.old text.new so result }
{
    Piece {
        length: lines::end(so.count, text, so.length),
        over: true,
        ..so
    }
}

// The first line of a file's text, at the front of the text.
fn begin(file: &[u8], words: &mut [u16], table: &mut [u16], text: &mut [u8]) -> Piece
    requires { (8707 ≤ length words.old) × (most_table ≤ length table.old) × (most_line ≤ length text.old) }
    ensures { TextBegun file.now words.new table.new text.new result }
{
    match packed::unpack(file, words) {
        FileAnswer::Done(count) => of_words(&words[..count], table, text),
        FileAnswer::Refused { number, place } => refused(number, place, text),
    }
}

fn of_words(words: &[u16], table: &mut [u16], text: &mut [u8]) -> Piece
    requires { (most_table ≤ length table.old) × (most_line ≤ length text.old) }
    ensures { OfWords words.now table.new text.new result }
{
    match tables::tables(words, table) {
        TableAnswer::Done(_) => of_grammar(words, text),
        TableAnswer::Refused { number, place } => refused(number, place, text),
    }
}

fn of_grammar(words: &[u16], text: &mut [u8]) -> Piece
    requires { most_line ≤ length text.old }
    ensures { FirstLine words.now text.new result }
{
    match judge::judge(words) {
        Ok(shape) => Piece {
            words: words.len(),
            count: 0,
            length: lines::suite(shape.nonterminals, shape.terminals, shape.rules, text, 0),
            over: false,
        },
        Err(fault) => {
            let refusal = Refusal::from(fault);
            refused(refusal.number(), refusal.place(), text)
        }
    }
}

// The one line of a refused file.
fn refused(number: u16, place: usize, text: &mut [u8]) -> Piece
    requires { most_line ≤ length text.old }
    ensures { OneLine number place text.new result }
{
    Piece {
        words: 0,
        count: 0,
        length: lines::refused(number, place, text, 0),
        over: true,
    }
}
