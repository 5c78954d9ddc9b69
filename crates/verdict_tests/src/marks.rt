// Marking: the sample hand-ins, which refusal comes first, how many bytes count, how long the lists are.
use books::book::EditableBook;
use books::sample;
use books::slot_table::SlotTable;
use books::write::write_all;
use logic::records::RawEntry;
use models::sample::model_bytes;
use sealed::seal::seal;
use std::process::Abort;
use std::test::Fail;
use verdict::Verdict;
use verdict::line::line;
use verdict::mark::{mark_model, mark_tableau};

// Pairs 2, 0; and pairs 2, 1, which are no order.
const ONE_BETTER: [u8; 8] = [2, 0, 0, 0, 0, 0, 0, 0];

const EACH_BETTER: [u8; 8] = [2, 0, 0, 0, 1, 0, 0, 0];

// Seals the sample book with more entries into a buffer: 64 bytes, and 7 more for each entry.
fn seal_sample(
    rt: &(impl Abort + AllocGlobal),
    more: &[RawEntry],
    out: &mut [u8],
) -> Result<(), Fail> {
    let mut book: SlotTable = EditableBook::new(rt.alloc())?;
    assert!(rt; write_all(&mut book, &sample::NODES).is_ok());
    assert!(rt; write_all(&mut book, &sample::ENTRIES).is_ok());
    assert!(rt; write_all(&mut book, more).is_ok());
    assert!(rt; seal(&book, out).is_ok());
    Ok(())
}

fn prints(rt: &impl Abort, verdict: Verdict, expected: &str) {
    let mut out = [0; 33];
    let length = line(verdict, &mut out).unwrap();
    assert_eq!(rt; &out[..length], expected.as_bytes());
}

fn tableau(rt: &impl Abort, book: &[u8], steps: &[u8], expected: &str) {
    prints(rt, mark_tableau(book, steps), expected);
}

fn model(rt: &impl Abort, book: &[u8], model: &[u8], pairs: &[u8], expected: &str) {
    prints(rt, mark_model(book, model, pairs), expected);
}

#[test]
fn sample_hand_ins(rt: HostRuntime) -> Result<(), Fail> {
    let mut book = [0; 64];
    seal_sample(&rt, &[], &mut book)?;
    let bytes = model_bytes();
    model(&rt, &book, &bytes, &ONE_BETTER, "satisfied, elements 2\n");
    model(&rt, &book, &bytes, &[0; 8], "refused 18 at 0\n");
    model(&rt, &book, &bytes, &EACH_BETTER, "refused 15 at 0\n");
    tableau(&rt, &book, &sample::WRONG_STEPS, "refused 10 at 6\n");
    tableau(&rt, &book, &sample::REFUTATION, "refused 9 at 1\n");
    let mut book = [0; 71];
    seal_sample(&rt, &[sample::QUESTION], &mut book)?;
    tableau(&rt, &book, &sample::REFUTATION, "closed, entries used 4\n");
    Ok(())
}

// The first refusal is check's, then that of the pairs, then the judge's.
#[test]
fn first_refusal(rt: HostRuntime) -> Result<(), Fail> {
    let mut book = [0; 64];
    seal_sample(&rt, &[], &mut book)?;
    let mut damaged = book;
    damaged[15] = 9;
    tableau(&rt, &damaged, &[7], "refused 2 at 15\n");
    tableau(&rt, &book, &[7], "refused 7 at 1\n");
    model(&rt, &damaged, &[], &EACH_BETTER, "refused 2 at 15\n");
    model(&rt, &book, &[], &EACH_BETTER, "refused 15 at 0\n");
    model(&rt, &book, &[], &[0; 7], "refused 7 at 7\n");
    model(&rt, &book, &[], &ONE_BETTER, "refused 7 at 0\n");
    Ok(())
}

// The sample book with the question, after a note of zeros and before two more bytes.
fn noted(rt: &(impl Abort + AllocGlobal), note: usize) -> Result<Vec<u8>, Fail> {
    let mut sample = [0; 71];
    seal_sample(rt, &[sample::QUESTION], &mut sample)?;
    let mut bytes = vec![in rt.alloc(); 0; note]?;
    bytes.extend_from_slice(&sample)?;
    bytes.extend_from_slice(&[1, 2])?;
    Ok(bytes)
}

// The trailer ends at byte 65,535; then one byte later.
#[test]
fn first_65535_bytes(rt: HostRuntime) -> Result<(), Fail> {
    let book = noted(&rt, 65464)?;
    tableau(&rt, &book, &sample::REFUTATION, "closed, entries used 4\n");
    let zeros = vec![in rt.alloc(); 0; 65536]?;
    tableau(&rt, &book, &zeros, "refused 7 at 65535\n");
    model(&rt, &book, &zeros, &ONE_BETTER, "refused 7 at 65535\n");
    model(&rt, &book, &[], &zeros, "refused 7 at 65535\n");
    tableau(&rt, &zeros, &[], "refused 13 at 0\n");
    let book = noted(&rt, 65465)?;
    tableau(&rt, &book, &sample::REFUTATION, "refused 19 at 65535\n");
    Ok(())
}

#[test]
fn lists_of_4096_records(rt: HostRuntime) -> Result<(), Fail> {
    let mut book = [0; 64];
    seal_sample(&rt, &[], &mut book)?;
    let mut steps = Vec::new(rt.alloc());
    for _ in 0..4096u16 {
        steps.extend_from_slice(&[1, 2, 0, 0, 0])?;
    }
    tableau(&rt, &book, &steps, "refused 13 at 4096\n");
    steps.extend_from_slice(&[1, 2, 0, 0, 0])?;
    tableau(&rt, &book, &steps, "refused 11 at 4096\n");
    Ok(())
}
