// Lines on standard output, for the programs that run the proved calls. Assumes nothing of its own. Whether a write
// succeeds is not asked: a line that is missing shows in what the program is held to.
#![tactic(auto)]

// The file that is standard output.
const STDOUT: i32 = 1;

// The text as it is.
pub fn text(octets: &[u8]) {
    io::write_all(STDOUT, octets);
}

// A space, and the number in decimal. By `as`: there is no From<usize> for u64.
pub fn number(n: usize) {
    text(b" ");
    io::print_decimal(STDOUT, n as u64);
}

// The word as a number.
pub fn word(w: u16) {
    number(usize::from(w));
}

// Each word of a list as a number.
pub fn words(list: &[u16]) {
    for w in list {
        word(*w);
    }
}

// That a call is done, with the length it answers.
pub fn done(length: usize) {
    text(b" done");
    number(length);
}

// That a call refuses, with the refusal's number and place.
pub fn refused(refusal: u16, place: usize) {
    text(b" refused");
    word(refusal);
    number(place);
}

// Whether lent memory has kept its content.
pub fn kept(is_kept: bool) {
    if is_kept {
        text(b" kept");
    } else {
        text(b" changed");
    }
}
