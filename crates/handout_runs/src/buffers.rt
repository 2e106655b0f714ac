// Lent buffers of words: how long they are, and how what they hold is printed. Assumes nothing.

// More words than a grammar has, than a table, and than a sentence and its derivation that `next` hands out.
pub const MOST_WORDS: usize = 9000;

pub const MOST_TABLE: usize = 1000;

pub const MOST_NUMBERS: usize = 5000;

// A longer list is printed as its checksum.
const LONG: usize = 40;

// How many numbers a list has, and then they; of more than 40 the checksum.
pub fn print_list(list: &[u16]) {
    print::number(list.len());
    if LONG < list.len() {
        print::text(b" sum");
        print::number(checksum(list));
    } else {
        print::words(list);
    }
}

// What the numbers are as digits to the base 31, modulo the prime 1,000,003.
fn checksum(list: &[u16]) -> usize {
    list.iter().fold(0, |sum, digit| {
        (sum % 1000003 * 31 + usize::from(*digit)) % 1000003
    })
}
