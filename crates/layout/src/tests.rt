// What `read` answers holds on to no words: they may be written while it is kept. The grammar has one nonterminal and one empty
// rule, which stands after the first three words. And of words that are no grammar it tells the place that document 01 gives:
// "words 3 4: 4 at 2". Assumes nothing.
use crate::judge::{Fault, Shape, read};
use std::test::Fail;

#[test]
fn words_written_while_kept(rt: HostRuntime) -> Result<(), Fail> {
    let mut words = [1, 0, 0, 0, 0];
    let placed = read(&words)?;
    words[0] = 2;
    let shape = Shape {
        nonterminals: 1,
        terminals: 0,
        start: 0,
        rules: 1,
    };
    assert_eq!(rt; placed.shape, shape);
    assert_eq!(rt; placed.places[0], 3);
    assert_eq!(rt; words[0], 2);
    Ok(())
}

#[test]
fn refused_where_the_words_end(rt: HostRuntime) -> Result<(), Fail> {
    assert_eq!(rt; read(&[3, 4]).err(), Some(Fault { place: 2 }));
    Ok(())
}
