// Interpretations with a field that is bad: its first byte is answered.
use crate::marked::empty_book;
use books::slot_table::SlotTable;
use judge::show::show;
use judge::show_faults::ShowFault::{self, View};
use models::faults::ViewFault::{BadField, BadLength};
use orders::ranks::Ranks;
use std::test::Fail;

// Two elements, and one byte changed.
fn changed(book: &SlotTable, order: &Ranks, at: usize, byte: u8) -> Result<u8, ShowFault> {
    let mut bytes = [0; 2337];
    bytes[0] = 2;
    if at < 2337 {
        bytes[at] = byte;
    }
    show(book, &bytes, order, &mut [])
}

#[test]
fn lengths(rt: HostRuntime) -> Result<(), Fail> {
    let book = empty_book(rt.alloc())?;
    let order = Ranks::new();
    assert_eq!(rt; show(&book, &[], &order, &mut []), Err(View(BadLength(0))));
    assert_eq!(rt;
        show(&book, &[1; 2336], &order, &mut []),
        Err(View(BadLength(2336)))
    );
    assert_eq!(rt;
        show(&book, &[1; 2338], &order, &mut []),
        Err(View(BadLength(2338)))
    );
    Ok(())
}

// Each byte of each mask contains an element past the size.
#[test]
fn every_mask(rt: HostRuntime) -> Result<(), Fail> {
    let book = empty_book(rt.alloc())?;
    let mut order = Ranks::new();
    let _ = order.fill(&[0, 0]);
    for at in (1..2305).step_by(4) {
        assert_eq!(rt; changed(&book, &order, at, 4), Err(View(BadField(at))));
        assert_eq!(rt;
            changed(&book, &order, at + 3, 128),
            Err(View(BadField(at)))
        );
    }
    Ok(())
}

// A role that leads to element 0 from each of 32 elements; there are only two.
#[test]
fn every_role(rt: HostRuntime) -> Result<(), Fail> {
    let book = empty_book(rt.alloc())?;
    let mut order = Ranks::new();
    let _ = order.fill(&[0, 0]);
    for (i, at) in (257..2305).step_by(4).enumerate() {
        let verdict = if i % 32 < 2 {
            Ok(2)
        } else {
            Err(View(BadField(at)))
        };
        assert_eq!(rt; changed(&book, &order, at, 1), verdict);
    }
    Ok(())
}

#[test]
fn every_individual(rt: HostRuntime) -> Result<(), Fail> {
    let book = empty_book(rt.alloc())?;
    let mut order = Ranks::new();
    let _ = order.fill(&[0, 0]);
    for at in 2305..2337 {
        assert_eq!(rt; changed(&book, &order, at, 1), Ok(2));
        assert_eq!(rt; changed(&book, &order, at, 2), Err(View(BadField(at))));
    }
    Ok(())
}
