// Books to ask about.
use books::book::EditableBook;
use books::sample;
use books::slot_table::SlotTable;
use books::write::write_all;
use std::alloc::{AllocError, Global};

pub(crate) fn empty_book(heap: Global) -> Result<SlotTable, AllocError> {
    EditableBook::new(heap)
}

pub(crate) fn sample_book(heap: Global) -> Result<SlotTable, AllocError> {
    let mut book: SlotTable = EditableBook::new(heap)?;
    let _ = write_all(&mut book, &sample::NODES);
    let _ = write_all(&mut book, &sample::ENTRIES);
    Ok(book)
}
