// The fault of each part of a hand-in: number, place and words.
use books::faults::Unfit;
use judge::faults::RefuteFault;
use judge::show_faults::ShowFault;
use logic::refusal::{Refusal, Report};
use orders::faults::PairsFault;
use sealed::faults::CheckFault;
use std::process::Abort;
use std::test::Fail;
use verdict::mark_fault::MarkFault;

fn reads(
    rt: &(impl Abort + AllocGlobal),
    fault: MarkFault,
    number: u8,
    place: usize,
    words: &str,
) -> Result<(), Fail> {
    assert_eq!(rt; fault.report(), Report { number, place });
    assert_eq!(rt; format!(in rt.alloc(); "{fault}")?.as_str(), words);
    Ok(())
}

#[test]
fn as_they_are_read(rt: HostRuntime) -> Result<(), Fail> {
    let frame = MarkFault::Check(CheckFault::BadFrame(65));
    reads(&rt, frame, 19, 65, "book: no valid trailer in 65 bytes")?;
    let record = MarkFault::Check(CheckFault::BadRecord(Unfit::UnknownKind, 15));
    reads(&rt, record, 2, 15, "book: record at byte 15: unknown kind")?;
    let pairs = MarkFault::Pairs(PairsFault::Unlawful(0));
    reads(
        &rt,
        pairs,
        15,
        0,
        "pairs: element 0: its set of better elements is not that of a strict order",
    )?;
    let steps = MarkFault::Refute(RefuteFault::AfterClosing(2));
    reads(
        &rt,
        steps,
        12,
        2,
        "tableau: step 2 after the last branch closed",
    )?;
    let model = MarkFault::Show(ShowFault::OrderSize(1));
    reads(
        &rt,
        model,
        16,
        1,
        "model: the order has 1 elements, the interpretation another number",
    )
}
