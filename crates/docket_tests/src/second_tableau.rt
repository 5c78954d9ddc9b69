// A second tableau that no longer uses an entry: its strike then lifts nothing.
use crate::answers::{enter, node, refute};
use books::book::EditableBook;
use books::journal::Journal;
use books::slot_table::SlotTable;
use docket::docket::Docket;
use docket::fault::Fault;
use docket::standing::Standing;
use judge::faults::RefuteFault;
use std::alloc::Global;
use std::process::Abort;
use std::test::Fail;

// Entries 0 and 1: individuals 0 and 1 are in bottom. Each tableau uses one of them.
fn two_tableaux<B: EditableBook>(rt: &impl Abort, heap: Global) -> Result<(), Fail> {
    let mut d: Docket<B> = Docket::new(heap)?;
    assert_eq!(rt; node(&mut d, 1, 0, 0), Ok(0));
    assert_eq!(rt; enter(&mut d, 2, 0, 0, 0), Ok(0));
    assert_eq!(rt; enter(&mut d, 2, 1, 0, 0), Ok(1));
    assert_eq!(rt; refute(&mut d, &[1, 0, 0, 0, 0, 13, 0, 0, 0, 0]), Ok(1));
    assert_eq!(rt; refute(&mut d, &[1, 1, 0, 0, 0, 13, 0, 0, 0, 0]), Ok(1));
    assert_eq!(rt;
        refute(&mut d, &[1, 0, 0, 0, 0, 13, 0, 0, 0, 0, 13, 0, 0, 0, 0]),
        Err(Fault::Refute(RefuteFault::AfterClosing(2)))
    );
    assert_eq!(rt; d.strike(0), Ok(()));
    assert_eq!(rt; d.standing(), Standing::Refuted);
    assert_eq!(rt; d.strike(1), Ok(()));
    assert_eq!(rt; d.standing(), Standing::Open);
    Ok(())
}

#[test]
fn in_a_slot_table(rt: HostRuntime) -> Result<(), Fail> {
    two_tableaux::<SlotTable>(&rt, rt.alloc())
}

#[test]
fn in_a_journal(rt: HostRuntime) -> Result<(), Fail> {
    two_tableaux::<Journal>(&rt, rt.alloc())
}
