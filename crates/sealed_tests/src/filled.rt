// A slot table with the sample book.
use books::book::EditableBook;
use books::sample;
use books::slot_table::SlotTable;
use books::write::write_all;
use std::process::Abort;
use std::test::Fail;

pub(crate) fn sample_table(rt: &(impl Abort + AllocGlobal)) -> Result<SlotTable, Fail> {
    let mut book: SlotTable = EditableBook::new(rt.alloc())?;
    assert!(rt; write_all(&mut book, &sample::NODES).is_ok());
    assert!(rt; write_all(&mut book, &sample::ENTRIES).is_ok());
    Ok(book)
}
