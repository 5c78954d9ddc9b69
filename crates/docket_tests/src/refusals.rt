// Every refusal is passed through with the call named, and moves nothing.
use crate::answers::{enter, node, refute, show_sample, unfit, write_sample};
use books::book::EditableBook;
use books::faults::Unfit::{NoSuchNode, OutOfRange, TypicalMisplaced, UnknownKind};
use books::faults::{OfferFault, Reason, StrikeFault};
use books::slot_table::SlotTable;
use docket::docket::Docket;
use docket::fault::Fault::{self, Enter, Node, Refute, Show, Strike};
use docket::standing::Standing;
use judge::faults::RefuteFault::{self, AtStep, NotClosed};
use judge::show_faults::ShowFault::{EntryFails, Fill, OrderSize, View};
use judge::step_fault::StepFault::{Full, Malformed, Misfit, NeverEntered};
use logic::refusal::{BadLength, Refusal, Report};
use models::faults::ViewFault;
use models::sample::model_bytes;
use orders::pairs::Pairs;
use std::alloc::Global;
use std::process::Abort;
use std::test::Fail;

const PAIRS: [u8; 8] = [2, 0, 0, 0, 0, 0, 0, 0];

// A docket over the sample book whose standing is shown.
fn shown(rt: &impl Abort, heap: Global) -> Result<Docket<SlotTable>, Fail> {
    let mut docket: Docket<SlotTable> = Docket::new(heap)?;
    write_sample(&mut docket);
    assert_eq!(rt; show_sample(&mut docket, &PAIRS), Ok(2));
    Ok(docket)
}

#[test]
fn of_the_book(rt: HostRuntime) -> Result<(), Fail> {
    let mut d = shown(&rt, rt.alloc())?;
    assert_eq!(rt; node(&mut d, 9, 0, 0), Err(Node(unfit(UnknownKind, 7))));
    assert_eq!(rt; node(&mut d, 2, 64, 0), Err(Node(unfit(OutOfRange, 7))));
    assert_eq!(rt; node(&mut d, 3, 7, 0), Err(Node(unfit(NoSuchNode, 7))));
    assert_eq!(rt;
        node(&mut d, 8, 3, 0),
        Err(Node(unfit(TypicalMisplaced, 7)))
    );
    assert_eq!(rt;
        enter(&mut d, 4, 0, 0, 0),
        Err(Enter(unfit(UnknownKind, 3)))
    );
    assert_eq!(rt;
        enter(&mut d, 2, 32, 0, 0),
        Err(Enter(unfit(OutOfRange, 3)))
    );
    assert_eq!(rt; enter(&mut d, 2, 0, 7, 0), Err(Enter(unfit(NoSuchNode, 3))));
    assert_eq!(rt;
        enter(&mut d, 1, 2, 3, 0),
        Err(Enter(unfit(TypicalMisplaced, 3)))
    );
    assert_eq!(rt; d.strike(3), Err(Strike(StrikeFault::NeverEntered(3))));
    assert_eq!(rt; d.standing(), Standing::Shown);
    Ok(())
}

#[test]
fn of_a_full_book(rt: HostRuntime) -> Result<(), Fail> {
    let mut d: Docket<SlotTable> = Docket::new(rt.alloc())?;
    for i in 0..512 {
        assert_eq!(rt; node(&mut d, 0, 0, 0), Ok(i));
    }
    assert_eq!(rt;
        node(&mut d, 0, 0, 0),
        Err(Node(OfferFault::new(Reason::Full, 512)))
    );
    for i in 0..256 {
        assert_eq!(rt; enter(&mut d, 2, 0, 0, 0), Ok(i));
    }
    assert_eq!(rt;
        enter(&mut d, 2, 0, 0, 0),
        Err(Enter(OfferFault::new(Reason::Full, 256)))
    );
    Ok(())
}

#[test]
fn of_a_tableau(rt: HostRuntime) -> Result<(), Fail> {
    let mut d = shown(&rt, rt.alloc())?;
    assert_eq!(rt;
        refute(&mut d, &[1]),
        Err(Refute(RefuteFault::BadLength(1)))
    );
    assert_eq!(rt;
        refute(&mut d, &[14, 0, 0, 0, 0]),
        Err(Refute(AtStep(0, Malformed)))
    );
    assert_eq!(rt;
        refute(&mut d, &[1, 3, 0, 0, 0]),
        Err(Refute(AtStep(0, NeverEntered)))
    );
    assert_eq!(rt;
        refute(&mut d, &[1, 0, 0, 0, 0]),
        Err(Refute(AtStep(0, Misfit)))
    );
    assert_eq!(rt;
        refute(&mut d, &[2, 0, 0, 0, 0, 2, 0, 0, 0, 0]),
        Err(Refute(AtStep(1, Full)))
    );
    assert_eq!(rt; refute(&mut d, &[]), Err(Refute(NotClosed(0))));
    assert_eq!(rt; d.standing(), Standing::Shown);
    Ok(())
}

#[test]
fn of_a_model(rt: HostRuntime) -> Result<(), Fail> {
    let mut d = shown(&rt, rt.alloc())?;
    let order = Pairs::new();
    let mut bytes = model_bytes();
    assert_eq!(rt;
        d.show(&[], &order, &mut []),
        Err(Show(View(ViewFault::BadLength(0))))
    );
    bytes[0] = 0;
    assert_eq!(rt;
        d.show(&bytes, &order, &mut []),
        Err(Show(View(ViewFault::BadField(0))))
    );
    assert_eq!(rt; show_sample(&mut d, &[0; 4]), Err(Show(OrderSize(1))));
    assert_eq!(rt; show_sample(&mut d, &[0; 8]), Err(Show(EntryFails(0))));
    bytes[0] = 1;
    bytes[1] = 0;
    bytes[5] = 0;
    bytes[9] = 0;
    assert_eq!(rt;
        d.show(&bytes, &order, &mut [0; 6]),
        Err(Show(Fill(BadLength(6))))
    );
    assert_eq!(rt; d.standing(), Standing::Shown);
    Ok(())
}

fn reads(
    rt: &(impl Abort + AllocGlobal),
    fault: Fault,
    number: u8,
    place: usize,
    words: &str,
) -> Result<(), Fail> {
    assert_eq!(rt; fault.report(), Report { number, place });
    assert_eq!(rt; format!(in rt.alloc(); "{fault}")?.as_str(), words);
    Ok(())
}

// Each fault's number, place and words.
#[test]
fn as_they_are_read(rt: HostRuntime) -> Result<(), Fail> {
    let full = Node(OfferFault::new(Reason::Full, 512));
    reads(&rt, full, 1, 512, "node 512: the book is full")?;
    let bare = Enter(unfit(TypicalMisplaced, 3));
    reads(&rt, bare, 5, 3, "entry 3: T out of place")?;
    let never = Strike(StrikeFault::NeverEntered(9));
    reads(&rt, never, 6, 9, "entry 9 was never entered")?;
    let again = Strike(StrikeFault::Struck(3));
    reads(&rt, again, 6, 3, "entry 3 is struck already")?;
    let step = Refute(AtStep(6, Misfit));
    reads(
        &rt,
        step,
        10,
        6,
        "tableau: step 6: no rule permits the step",
    )?;
    let open = Refute(NotClosed(7));
    reads(&rt, open, 13, 7, "tableau: a branch is open after 7 steps")?;
    let field = Show(View(ViewFault::BadField(257)));
    reads(&rt, field, 14, 257, "model: invalid field at byte 257")?;
    let list = Show(Fill(BadLength(6)));
    reads(&rt, list, 17, 6, "model: a list of length 6 is too short")?;
    let fails = Show(EntryFails(0));
    reads(&rt, fails, 18, 0, "model: entry 0 is false")
}
