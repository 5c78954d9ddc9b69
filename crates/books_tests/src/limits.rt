// The limits on numbers and counts, and what stands past the end.
use crate::answers::{both, enter, node, unfit};
use books::book::{EditableBook, ReadableBook};
use books::faults::StrikeFault::Struck;
use books::faults::Unfit::{self, NoSuchNode, OutOfRange, UnknownKind};
use books::faults::{OfferFault, Reason};
use books::write::write_all;
use logic::records::{RawEntry, RawNode};
use std::process::Abort;
use std::test::Fail;

fn node_limit<B: EditableBook>(rt: &impl Abort, book: &mut B) {
    for i in 0..512u16 {
        assert_eq!(rt; node(book, 0, 0, 0), Ok(i));
    }
    assert_eq!(rt; book.node_count(), 512);
    assert_eq!(rt;
        node(book, 0, 0, 0),
        Err(OfferFault::new(Reason::Full, 512))
    );
    // the limit comes before an unknown kind
    assert_eq!(rt;
        node(book, 9, 0, 0),
        Err(OfferFault::new(Reason::Full, 512))
    );
    assert_eq!(rt; book.node_count(), 512);
}

#[test]
fn node_512_is_granted_and_513_refused(rt: HostRuntime) -> Result<(), Fail> {
    let (mut table, mut journal) = both(&rt)?;
    node_limit(&rt, &mut table);
    node_limit(&rt, &mut journal);
    Ok(())
}

fn entry_limit<B: EditableBook>(rt: &impl Abort, book: &mut B) {
    for i in 0..256u16 {
        assert_eq!(rt; enter(book, 3, 0, 0, 0), Ok(i));
    }
    assert_eq!(rt;
        enter(book, 3, 0, 0, 0),
        Err(OfferFault::new(Reason::Full, 256))
    );
    assert_eq!(rt;
        enter(book, 9, 0, 0, 0),
        Err(OfferFault::new(Reason::Full, 256))
    );
    assert_eq!(rt; book.entry_count(), 256);
}

#[test]
fn entry_256_is_granted_and_257_refused(rt: HostRuntime) -> Result<(), Fail> {
    let (mut table, mut journal) = both(&rt)?;
    entry_limit(&rt, &mut table);
    entry_limit(&rt, &mut journal);
    Ok(())
}

// By number, as records are offered.
// Nodes that are refused by a book of one node, and why.
const BAD_NODES: [(u8, u16, u16, Unfit); 22] = [
    (9, 0, 0, UnknownKind),
    (255, 0, 0, UnknownKind),
    (0, 1, 0, OutOfRange),
    (0, 0, 1, OutOfRange),
    (1, 1, 0, OutOfRange),
    (1, 0, 1, OutOfRange),
    (2, 64, 0, OutOfRange),
    (2, 0, 1, OutOfRange),
    (3, 0, 1, OutOfRange),
    (6, 16, 0, OutOfRange),
    (7, 16, 0, OutOfRange),
    (8, 0, 1, OutOfRange),
    (2, 65535, 0, OutOfRange),
    (7, 65535, 0, OutOfRange),
    (3, 1, 0, NoSuchNode),
    (4, 1, 0, NoSuchNode),
    (4, 0, 1, NoSuchNode),
    (5, 1, 0, NoSuchNode),
    (5, 0, 1, NoSuchNode),
    (6, 0, 1, NoSuchNode),
    (7, 0, 1, NoSuchNode),
    (8, 1, 0, NoSuchNode),
];

// Nodes that a book grants in this order.
const GOOD_NODES: [(u8, u16, u16); 8] = [
    (2, 63, 0),
    (6, 15, 0),
    (7, 15, 1),
    (3, 2, 0),
    (4, 3, 0),
    (5, 0, 4),
    (8, 0, 0),
    (1, 0, 0),
];

fn nodes_at_their_limits<B: EditableBook>(rt: &impl Abort, book: &mut B) {
    assert_eq!(rt; node(book, 2, 0, 0), Ok(0));
    for (kind, a, b, why) in BAD_NODES {
        assert_eq!(rt; node(book, kind, a, b), Err(unfit(why, 1)));
    }
    assert_eq!(rt; book.node_count(), 1);
    let raws = GOOD_NODES.map(|(kind, a, b)| RawNode { kind, a, b });
    assert!(rt; write_all(book, &raws).is_ok());
    assert_eq!(rt; book.node_count(), 9);
}

#[test]
fn nodes_are_refused_past_their_limits(rt: HostRuntime) -> Result<(), Fail> {
    let (mut table, mut journal) = both(&rt)?;
    nodes_at_their_limits(&rt, &mut table);
    nodes_at_their_limits(&rt, &mut journal);
    Ok(())
}

// Entries that are refused by a book of one node and one entry, and why.
const BAD_ENTRIES: [(u8, u16, u16, u16, Unfit); 13] = [
    (0, 0, 0, 0, UnknownKind),
    (4, 0, 0, 0, UnknownKind),
    (17, 0, 0, 0, UnknownKind),
    (255, 0, 0, 0, UnknownKind),
    (1, 0, 0, 1, OutOfRange),
    (2, 32, 0, 0, OutOfRange),
    (2, 0, 0, 1, OutOfRange),
    (3, 16, 0, 0, OutOfRange),
    (3, 0, 32, 0, OutOfRange),
    (3, 0, 0, 32, OutOfRange),
    (1, 1, 0, 0, NoSuchNode),
    (1, 0, 1, 0, NoSuchNode),
    (2, 0, 1, 0, NoSuchNode),
];

// Entries that this book grants.
const GOOD_ENTRIES: [(u8, u16, u16, u16); 3] = [(1, 0, 0, 0), (2, 31, 0, 0), (3, 15, 31, 31)];

fn entries_at_their_limits<B: EditableBook>(rt: &impl Abort, book: &mut B) {
    assert_eq!(rt; node(book, 2, 0, 0), Ok(0));
    assert_eq!(rt; enter(book, 3, 0, 0, 0), Ok(0));
    for (kind, a, b, c, why) in BAD_ENTRIES {
        assert_eq!(rt; enter(book, kind, a, b, c), Err(unfit(why, 1)));
    }
    assert_eq!(rt; book.entry_count(), 1);
    let raws = GOOD_ENTRIES.map(|(kind, a, b, c)| RawEntry { kind, a, b, c });
    assert!(rt; write_all(book, &raws).is_ok());
    assert_eq!(rt; book.entry_count(), 4);
}

#[test]
fn entries_are_refused_past_their_limits(rt: HostRuntime) -> Result<(), Fail> {
    let (mut table, mut journal) = both(&rt)?;
    entries_at_their_limits(&rt, &mut table);
    entries_at_their_limits(&rt, &mut journal);
    Ok(())
}

// Fills a book: 512 nodes, 256 entries, and a strike of each.
fn filled<B: EditableBook>(rt: &impl Abort, book: &mut B) {
    node_limit(rt, book);
    entry_limit(rt, book);
    for i in 0..256u16 {
        assert_eq!(rt; book.strike(i), Ok(()));
    }
    assert_eq!(rt; book.strike(0), Err(Struck(0)));
    assert!(rt; !book.entry_at(255).live);
}

#[test]
fn a_full_book_takes_every_strike(rt: HostRuntime) -> Result<(), Fail> {
    let (mut table, mut journal) = both(&rt)?;
    filled(&rt, &mut table);
    filled(&rt, &mut journal);
    Ok(())
}
