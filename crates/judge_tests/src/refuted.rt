// Calls of refute, with answers that can be compared.
use books::book::{EditableBook, ReadableBook};
use books::slot_table::SlotTable;
use books::write::write_all;
use judge::faults::RefuteFault;
use judge::lists::Blank;
use judge::refute::refute;
use judge::working::Split;
use logic::records::{RawEntry, RawNode};
use logic::tableau::{Constraint, Edge};
use std::alloc::{AllocError, Global};
use std::process::Abort;
use std::test::Fail;

// The number of entries used, or the fault.
pub(crate) type Answer = Result<u16, RefuteFault>;

// The lengths of the three lists.
#[derive(Clone, Copy)]
pub struct Room {
    pub constraints: usize,
    pub edges: usize,
    pub splits: usize,
}

// Refutes with fresh lists.
pub(crate) fn judged<B: ReadableBook>(
    heap: Global,
    book: &B,
    bytes: &[u8],
    room: Room,
) -> Result<Answer, AllocError> {
    let mut constraints = vec![in heap; Constraint::blank(); room.constraints]?;
    let mut edges = vec![in heap; Edge::blank(); room.edges]?;
    let mut splits = vec![in heap; Split::blank(); room.splits]?;
    let answer = refute(book, bytes, &mut constraints, &mut edges, &mut splits);
    Ok(answer.map(|used| used.count()))
}

// Appends a step.
pub(crate) fn add_step(bytes: &mut Vec<u8>, op: u8, a: u16, b: u16) -> Result<(), AllocError> {
    let [a_low, a_high] = a.to_le_bytes();
    let [b_low, b_high] = b.to_le_bytes();
    bytes.extend_from_slice(&[op, a_low, a_high, b_low, b_high])
}

// A book with these records.
pub(crate) fn book_of(
    rt: &impl Abort,
    heap: Global,
    nodes: &[RawNode],
    entries: &[RawEntry],
) -> Result<SlotTable, Fail> {
    let mut book: SlotTable = EditableBook::new(heap)?;
    assert!(rt; write_all(&mut book, nodes).is_ok());
    assert!(rt; write_all(&mut book, entries).is_ok());
    Ok(book)
}
