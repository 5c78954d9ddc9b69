// A run through every cell of the table that occurs.
use crate::answers::{enter, refute, show_sample, write_sample};
use books::book::EditableBook;
use books::journal::Journal;
use books::sample;
use books::slot_table::SlotTable;
use docket::docket::Docket;
use docket::standing::Standing;
use std::alloc::Global;
use std::process::Abort;
use std::test::Fail;

const PAIRS: [u8; 8] = [2, 0, 0, 0, 0, 0, 0, 0];

// From open to shown, to open by an entry, to refuted.
fn to_refuted<B: EditableBook>(rt: &impl Abort, docket: &mut Docket<B>) -> Result<(), Fail> {
    write_sample(docket);
    assert_eq!(rt; docket.standing(), Standing::Open);
    assert_eq!(rt; show_sample(docket, &PAIRS), Ok(2));
    assert_eq!(rt; docket.standing(), Standing::Shown);
    assert_eq!(rt; show_sample(docket, &PAIRS), Ok(2));
    assert_eq!(rt; docket.standing(), Standing::Shown);
    assert_eq!(rt; enter(docket, 2, 0, 3, 0), Ok(3));
    assert_eq!(rt; docket.standing(), Standing::Open);
    assert_eq!(rt; refute(docket, &sample::REFUTATION), Ok(4));
    assert_eq!(rt; docket.standing(), Standing::Refuted);
    assert_eq!(rt; refute(docket, &sample::REFUTATION), Ok(4));
    assert_eq!(rt; docket.standing(), Standing::Refuted);
    Ok(())
}

// Entering and striking an unused entry changes nothing; striking a used entry leads to open.
fn to_open<B: EditableBook>(rt: &impl Abort, docket: &mut Docket<B>) -> Result<(), Fail> {
    assert_eq!(rt; enter(docket, 2, 1, 0, 0), Ok(4));
    assert_eq!(rt; docket.standing(), Standing::Refuted);
    assert_eq!(rt; docket.strike(4), Ok(()));
    assert_eq!(rt; docket.standing(), Standing::Refuted);
    assert_eq!(rt; docket.strike(3), Ok(()));
    assert_eq!(rt; docket.standing(), Standing::Open);
    assert_eq!(rt; enter(docket, 2, 1, 0, 0), Ok(5));
    assert_eq!(rt; docket.strike(5), Ok(()));
    assert_eq!(rt; docket.standing(), Standing::Open);
    Ok(())
}

// Strikes change nothing: from shown of used and unused entries, from open of a used entry.
fn to_shown_and_open<B: EditableBook>(rt: &impl Abort, docket: &mut Docket<B>) -> Result<(), Fail> {
    assert_eq!(rt; enter(docket, 2, 1, 0, 0), Ok(6));
    assert_eq!(rt; show_sample(docket, &PAIRS), Ok(2));
    assert_eq!(rt; docket.strike(6), Ok(()));
    assert_eq!(rt; docket.standing(), Standing::Shown);
    assert_eq!(rt; docket.strike(0), Ok(()));
    assert_eq!(rt; docket.standing(), Standing::Shown);
    assert_eq!(rt; enter(docket, 2, 1, 0, 0), Ok(7));
    assert_eq!(rt; docket.standing(), Standing::Open);
    assert_eq!(rt; docket.strike(1), Ok(()));
    assert_eq!(rt; docket.standing(), Standing::Open);
    Ok(())
}

fn every_cell<B: EditableBook>(rt: &impl Abort, heap: Global) -> Result<(), Fail> {
    let mut docket: Docket<B> = Docket::new(heap)?;
    to_refuted(rt, &mut docket)?;
    to_open(rt, &mut docket)?;
    to_shown_and_open(rt, &mut docket)
}

#[test]
fn in_a_slot_table(rt: HostRuntime) -> Result<(), Fail> {
    every_cell::<SlotTable>(&rt, rt.alloc())
}

#[test]
fn in_a_journal(rt: HostRuntime) -> Result<(), Fail> {
    every_cell::<Journal>(&rt, rt.alloc())
}
