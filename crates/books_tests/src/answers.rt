// Calls of a book, with answers that can be compared.
use books::book::EditableBook;
use books::faults::{EnterFault, NodeFault, OfferFault, Reason, Unfit};
use books::journal::Journal;
use books::slot_table::SlotTable;
use logic::records::{RawEntry, RawNode};
use std::alloc::AllocError;

// By number, as records are offered.
pub(crate) fn node<B: EditableBook>(
    book: &mut B,
    kind: u8,
    a: u16,
    b: u16,
) -> Result<u16, NodeFault> {
    book.node(RawNode { kind, a, b })
}

pub(crate) fn enter<B: EditableBook>(
    book: &mut B,
    kind: u8,
    a: u16,
    b: u16,
    c: u16,
) -> Result<u16, EnterFault> {
    book.enter(RawEntry { kind, a, b, c })
}

// A record that does not fit a book, which has `count` of its sort.
pub(crate) fn unfit<R>(why: Unfit, count: u16) -> OfferFault<R> {
    OfferFault::new(Reason::Unfit(why), count)
}

// An empty book of each kind.
pub(crate) fn both(rt: &HostRuntime) -> Result<(SlotTable, Journal), AllocError> {
    let table = EditableBook::new(rt.alloc())?;
    let journal = EditableBook::new(rt.alloc())?;
    Ok((table, journal))
}
