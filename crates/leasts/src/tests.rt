// What `leasts` answers holds on to no words: they may be written while it is kept. The grammar has one nonterminal and one empty
// rule, whose size is 1. And of words that are no grammar it tells the place that document 01 gives: "words 3 4: 4 at 2". Assumes
// nothing.
use crate::leasts;
use layout::judge::Fault;
use std::test::Fail;

#[test]
fn words_written_while_kept(rt: HostRuntime) -> Result<(), Fail> {
    let mut words = [1, 0, 0, 0, 0];
    let found = leasts(&words)?;
    words[0] = 2;
    assert_eq!(rt; found.placed.shape.nonterminals, 1);
    assert_eq!(rt; found.placed.places[0], 3);
    assert_eq!(rt; found.leasts[0], 1);
    assert_eq!(rt; found.sizes[0], 1);
    assert_eq!(rt; words[0], 2);
    Ok(())
}

#[test]
fn refused_where_the_words_end(rt: HostRuntime) -> Result<(), Fail> {
    assert_eq!(rt; leasts(&[3, 4]).err(), Some(Fault { place: 2 }));
    Ok(())
}
