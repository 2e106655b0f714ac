// What reads grammar words: the code judges words once and notes where their rules stand (`head`), which says what they are (`judge`)
// and gives a reading of them (`reading`); it walks the rules of any words (`walk`), and finds rules by number (`rules`). All read words
// by index (`words`). What words are a grammar is crate grammar's specs/Words.
#![tactic(auto)]

mod head;
pub mod judge;
pub mod reading;
pub mod rules;
#[cfg(test)]
mod tests;
pub mod walk;
pub mod words;
