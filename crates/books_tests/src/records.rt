// What a book answers of its records: as they were offered, past the end, and after a strike.
use crate::answers::both;
use books::book::{EditableBook, ReadableBook};
use books::faults::StrikeFault::{NeverEntered, Struck};
use books::sample;
use books::write::write_all;
use logic::records::{RawEntry, RawNode};
use std::process::Abort;
use std::test::Fail;

// The answer past the last node.
const NO_NODE: RawNode = RawNode {
    kind: 255,
    a: 0,
    b: 0,
};

const NO_ENTRY: RawEntry = RawEntry {
    kind: 255,
    a: 0,
    b: 0,
    c: 0,
};

fn check_node<B: ReadableBook>(rt: &impl Abort, book: &B, i: u16, raw: RawNode) {
    assert!(rt; RawNode::from(book.node_at(i)) == raw, "node");
}

fn check_line<B: ReadableBook>(rt: &impl Abort, book: &B, i: u16, raw: RawEntry) {
    assert!(rt; RawEntry::from(book.entry_at(i).entry) == raw, "entry");
}

fn reads_back<B: EditableBook>(rt: &impl Abort, book: &mut B) {
    assert!(rt; write_all(book, &sample::NODES).is_ok());
    assert!(rt; write_all(book, &sample::ENTRIES).is_ok());
    for (i, raw) in (0..).zip(sample::NODES) {
        check_node(rt, book, i, raw);
    }
    for (i, raw) in (0..).zip(sample::ENTRIES) {
        check_line(rt, book, i, raw);
        assert!(rt; book.entry_at(i).live);
    }
}

#[test]
fn records_read_back_as_offered(rt: HostRuntime) -> Result<(), Fail> {
    let (mut table, mut journal) = both(&rt)?;
    reads_back(&rt, &mut table);
    reads_back(&rt, &mut journal);
    Ok(())
}

fn absent_from<B: ReadableBook>(rt: &impl Abort, book: &B, nodes: u16, entries: u16) {
    check_node(rt, book, nodes, NO_NODE);
    check_node(rt, book, 65535, NO_NODE);
    check_line(rt, book, entries, NO_ENTRY);
    check_line(rt, book, 65535, NO_ENTRY);
    assert!(rt; !book.entry_at(entries).live);
    assert!(rt; !book.entry_at(65535).live);
}

fn past_the_end<B: EditableBook>(rt: &impl Abort, book: &mut B) {
    absent_from(rt, book, 0, 0);
    reads_back(rt, book);
    absent_from(rt, book, 7, 3);
}

#[test]
fn nothing_stands_past_the_end(rt: HostRuntime) -> Result<(), Fail> {
    let (mut table, mut journal) = both(&rt)?;
    past_the_end(&rt, &mut table);
    past_the_end(&rt, &mut journal);
    Ok(())
}

fn strikes<B: EditableBook>(rt: &impl Abort, book: &mut B) {
    assert_eq!(rt; book.strike(0), Err(NeverEntered(0)));
    reads_back(rt, book);
    assert_eq!(rt; book.strike(1), Ok(()));
    assert_eq!(rt; book.strike(1), Err(Struck(1)));
    assert_eq!(rt; book.strike(3), Err(NeverEntered(3)));
    assert_eq!(rt; book.strike(65535), Err(NeverEntered(65535)));
    assert!(rt; book.entry_at(0).live && !book.entry_at(1).live && book.entry_at(2).live);
    let struck = RawEntry {
        kind: 1,
        a: 5,
        b: 6,
        c: 0,
    };
    check_line(rt, book, 1, struck);
    assert_eq!(rt; book.entry_count(), 3);
}

#[test]
fn an_entry_is_struck_once(rt: HostRuntime) -> Result<(), Fail> {
    let (mut table, mut journal) = both(&rt)?;
    strikes(&rt, &mut table);
    strikes(&rt, &mut journal);
    Ok(())
}
