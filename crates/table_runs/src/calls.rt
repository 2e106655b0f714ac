// The calls. Assumes nothing.
use cases::UNTOUCHED;
use tables::TableAnswer;

// More words than a grammar has, and than a table.
const MOST_WORDS: usize = 9000;

const MOST_ROOM: usize = 1000;

pub fn tables_and_test(case: &[u8]) {
    let mut words = [0; MOST_WORDS];
    let words = cases::numbers(cases::given(case), &mut words);
    let mut table = [UNTOUCHED; MOST_ROOM];
    run(words, cases::front_mut(&mut table, cases::room(case)));
}

fn run(words: &[u16], table: &mut [u16]) {
    let answer = tables::tables(words, table);
    print_answer(answer, table);
    print_test(words, table);
    if let TableAnswer::Done(length) = answer {
        print_table(words, cases::front_mut(table, length));
    }
}

// The answer, and whether the table is kept past what was written.
fn print_answer(answer: TableAnswer, table: &[u16]) {
    match answer {
        TableAnswer::Done(length) => {
            print::done(length);
            print::kept(cases::untouched(table, length));
        }
        TableAnswer::Refused { number, place } => {
            print::refused(number, place);
            print::kept(cases::untouched(table, 0));
        }
    }
}

// Whether the table is the grammar's own, and then the grammar's numbers.
fn print_test(words: &[u16], table: &[u16]) {
    match table_test::test(words, table) {
        Some(placed) => {
            print::text(b" its");
            print::number(placed.shape.nonterminals);
            print::number(placed.shape.start);
            print::number(placed.shape.rules);
        }
        None => print::text(b" not its"),
    }
}

// Whether the table that was written is the only one near it that passes the test, and its words.
fn print_table(words: &[u16], table: &mut [u16]) {
    if is_alone(words, table) {
        print::text(b" alone,");
    } else {
        print::text(b" not alone,");
    }
    print::words(table);
}

// Whether each table that differs from this one in one word, by one, fails the test.
fn is_alone(words: &[u16], table: &mut [u16]) -> bool {
    for at in 0..table.len() {
        let word = table[at];
        table[at] = word.wrapping_add(1);
        let passes = table_test::test(words, table).is_some();
        table[at] = word;
        if passes {
            return false;
        }
    }
    true
}
