// Sealed books pass check and read back, with and without a note.
use crate::filled::sample_table;
use books::book::{EditableBook, ReadableBook};
use books::slot_table::SlotTable;
use logic::records::{RawEntry, RawNode};
use logic::refusal::{BadLength, Refusal, Report};
use sealed::check::check as check_bytes;
use sealed::seal::seal;
use sealed::sealed_book::SealedBook;
use std::process::Abort;
use std::test::Fail;

fn same_book<A: ReadableBook, B: ReadableBook>(rt: &impl Abort, a: &A, b: &B) {
    assert_eq!(rt; a.node_count(), b.node_count());
    // both loops by number, as a book is asked
    for i in 0..a.node_count() {
        assert!(rt;
            RawNode::from(a.node_at(i)) == RawNode::from(b.node_at(i)),
            "node"
        );
    }
    assert_eq!(rt; a.entry_count(), b.entry_count());
    for i in 0..a.entry_count() {
        let x = a.entry_at(i);
        let y = b.entry_at(i);
        assert!(rt; RawEntry::from(x.entry) == RawEntry::from(y.entry), "entry");
        assert_eq!(rt; x.live, y.live);
    }
}

// Seals a book after a note of `note` bytes, opens it, and compares.
fn reads_back<B: ReadableBook>(
    rt: &impl Abort,
    book: &B,
    out: &mut [u8],
    note: usize,
) -> Result<usize, Fail> {
    assert!(rt; note <= out.len());
    let sealed = seal(book, &mut out[note..]);
    let length = sealed.map_err(|_| Fail::new("not sealed"))?;
    assert!(rt; note <= out.len() && length <= out.len() - note);
    let bytes = &out[0..note + length];
    assert!(rt; check_bytes(bytes).is_ok());
    let opened = SealedBook::open(bytes);
    same_book(rt, book, &opened);
    Ok(length)
}

#[test]
fn the_empty_book_has_8_bytes(rt: HostRuntime) -> Result<(), Fail> {
    let book: SlotTable = EditableBook::new(rt.alloc())?;
    let mut out = [7; 10];
    assert_eq!(rt; reads_back(&rt, &book, &mut out, 0)?, 8);
    assert_eq!(rt; out, [0, 0, 0, 0, 0, 0, 0, 0, 7, 7]);
    Ok(())
}

#[test]
fn the_sample_book_has_64_bytes(rt: HostRuntime) -> Result<(), Fail> {
    let mut book = sample_table(&rt)?;
    let mut out = [9; 70];
    assert_eq!(rt; reads_back(&rt, &book, &mut out, 0)?, 64);
    assert_eq!(rt; out[56], 7);
    assert_eq!(rt; out[58], 3);
    assert_eq!(rt; out[60], 0x38);
    assert!(rt; book.strike(1).is_ok());
    assert_eq!(rt; reads_back(&rt, &book, &mut out, 1)?, 64);
    assert_eq!(rt; out[0], 2);
    assert_eq!(rt; out[43], 17);
    Ok(())
}

#[test]
fn the_largest_book_has_4360_bytes(rt: HostRuntime) -> Result<(), Fail> {
    let mut book: SlotTable = EditableBook::new(rt.alloc())?;
    for _ in 0..512u16 {
        assert!(rt;
            book.node(RawNode {
                kind: 2,
                a: 63,
                b: 0,
            })
            .is_ok()
        );
    }
    for _ in 0..256u16 {
        assert!(rt;
            book.enter(RawEntry {
                kind: 2,
                a: 31,
                b: 511,
                c: 0,
            })
            .is_ok()
        );
    }
    assert!(rt; book.strike(255).is_ok());
    let mut out = [0; 4400];
    assert_eq!(rt; reads_back(&rt, &book, &mut out, 40)?, 4360);
    Ok(())
}

#[test]
fn a_short_buffer_stays_as_it_was(rt: HostRuntime) -> Result<(), Fail> {
    let book: SlotTable = EditableBook::new(rt.alloc())?;
    let mut out = [5; 7];
    let refused = seal(&book, &mut out);
    assert_eq!(rt; refused, Err(BadLength(7)));
    assert_eq!(rt;
        refused.map_err(|fault| fault.report()),
        Err(Report {
            number: 20,
            place: 7
        })
    );
    assert_eq!(rt; out, [5; 7]);
    Ok(())
}
