// What `test` answers holds on to no words: they may be written while it is kept. Document 01: "words 1 0 0 0 0", "table
// 1 0 0 65535 65535 1". And it answers none of another table, and of words that are no grammar. Assumes nothing.
use crate::test;
use std::test::Fail;

#[test]
fn words_written_while_kept(rt: HostRuntime) -> Result<(), Fail> {
    let mut words = [1, 0, 0, 0, 0];
    let placed = test(&words, &[1, 0, 0, 65535, 65535, 1]).ok_or("not its own")?;
    words[0] = 2;
    assert_eq!(rt; placed.shape.nonterminals, 1);
    assert_eq!(rt; placed.shape.rules, 1);
    assert_eq!(rt; placed.places[0], 3);
    assert_eq!(rt; words[0], 2);
    Ok(())
}

#[test]
fn none_of_another_table_or_no_grammar(rt: HostRuntime) -> Result<(), Fail> {
    assert!(rt; test(&[1, 0, 0, 0, 0], &[2, 0, 0, 65535, 65535, 1]).is_none());
    assert!(rt; test(&[3, 4], &[1, 0, 0, 65535, 65535, 1]).is_none());
    Ok(())
}
