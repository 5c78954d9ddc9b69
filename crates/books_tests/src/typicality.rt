// Where T may stand.
use crate::answers::{both, enter, node, unfit};
use books::book::EditableBook;
use books::faults::Unfit::TypicalMisplaced;
use books::write::write_all;
use logic::records::RawNode;
use std::process::Abort;
use std::test::Fail;

// Nodes (kind, a, b): names a and b, T(a), not T(a), T(a) and b, b or T(a).
const NODES: [(u8, u16, u16); 6] = [
    (2, 0, 0),
    (2, 1, 0),
    (8, 0, 0),
    (3, 2, 0),
    (4, 2, 1),
    (5, 1, 2),
];

fn write_nodes<B: EditableBook>(rt: &impl Abort, book: &mut B) {
    let raws = NODES.map(|(kind, a, b)| RawNode { kind, a, b });
    assert!(rt; write_all(book, &raws).is_ok());
}

fn below_all_some_and_typical<B: EditableBook>(rt: &impl Abort, book: &mut B) {
    write_nodes(rt, book);
    for c in 2..6 {
        assert_eq!(rt; node(book, 6, 0, c), Err(unfit(TypicalMisplaced, 6)));
        assert_eq!(rt; node(book, 7, 0, c), Err(unfit(TypicalMisplaced, 6)));
        assert_eq!(rt; node(book, 8, c, 0), Err(unfit(TypicalMisplaced, 6)));
    }
    assert_eq!(rt; node(book, 6, 2, 0), Ok(6));
    assert_eq!(rt; node(book, 7, 3, 1), Ok(7));
    assert_eq!(rt; node(book, 8, 6, 0), Ok(8));
    assert_eq!(rt; node(book, 8, 8, 0), Err(unfit(TypicalMisplaced, 9)));
}

#[test]
fn typicality_stands_nowhere_below_all_some_and_typical(rt: HostRuntime) -> Result<(), Fail> {
    let (mut table, mut journal) = both(&rt)?;
    below_all_some_and_typical(&rt, &mut table);
    below_all_some_and_typical(&rt, &mut journal);
    Ok(())
}

fn in_entries<B: EditableBook>(rt: &impl Abort, book: &mut B) {
    write_nodes(rt, book);
    assert_eq!(rt; enter(book, 1, 2, 0, 0), Ok(0));
    assert_eq!(rt; enter(book, 1, 0, 1, 0), Ok(1));
    for c in 3..6 {
        assert_eq!(rt; enter(book, 1, c, 0, 0), Err(unfit(TypicalMisplaced, 2)));
    }
    for c in 2..6 {
        assert_eq!(rt; enter(book, 1, 0, c, 0), Err(unfit(TypicalMisplaced, 2)));
        assert_eq!(rt; enter(book, 1, 2, c, 0), Err(unfit(TypicalMisplaced, 2)));
    }
    for c in 0..6 {
        assert_eq!(rt; enter(book, 2, c, c, 0), Ok(2 + c));
    }
}

#[test]
fn typicality_stands_on_the_left_and_in_facts(rt: HostRuntime) -> Result<(), Fail> {
    let (mut table, mut journal) = both(&rt)?;
    in_entries(&rt, &mut table);
    in_entries(&rt, &mut journal);
    Ok(())
}
