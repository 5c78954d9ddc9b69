// Playing a list of calls leads to the same standing as making the calls one by one.
use books::book::EditableBook;
use books::journal::Journal;
use books::sample;
use books::slot_table::SlotTable;
use docket::play::{Call, play};
use docket::standing::Standing;
use judge::lists::Blank;
use models::sample::model_bytes;
use orders::any::AnyOrder;
use orders::pairs::Pairs;
use orders::ranks::Ranks;
use std::alloc::Global;
use std::process::Abort;
use std::test::Fail;

// The calls: the sample book, its model twice (with an order by pairs and by ranks), the question, its refutation,
// and the strike of a used entry.
fn calls<'a>(
    heap: Global,
    model: &'a [u8],
    steps: &'a [u8],
) -> Result<Vec<Call<&'a [u8], AnyOrder>>, Fail> {
    let mut pairs = Pairs::new();
    let _ = pairs.fill(&[2, 0, 0, 0, 0, 0, 0, 0]);
    let mut ranks = Ranks::new();
    let _ = ranks.fill(&[1, 0]);
    let mut calls = Vec::new(heap);
    for raw in &sample::NODES {
        calls.push(Call::Node(*raw))?;
    }
    for raw in &sample::ENTRIES {
        calls.push(Call::Enter(*raw))?;
    }
    calls.push(Call::Show(model, AnyOrder::Pairs(pairs)))?;
    calls.push(Call::Show(model, AnyOrder::Ranks(ranks)))?;
    calls.push(Call::Enter(sample::QUESTION))?;
    calls.push(Call::Refute(steps))?;
    calls.push(Call::Standing)?;
    calls.push(Call::Strike(3))?;
    Ok(calls)
}

// The standing of a new docket after the first n calls.
fn standing_after<B: EditableBook>(
    heap: Global,
    calls: &[Call<&[u8], AnyOrder>],
    n: usize,
) -> Result<Standing, Fail> {
    let mut constraints = [Blank::blank(); 5];
    let mut edges = [Blank::blank(); 1];
    let mut splits = [Blank::blank(); 1];
    let docket = play::<B, AnyOrder>(
        heap,
        calls.get(..n).unwrap_or(calls),
        &mut constraints,
        &mut edges,
        &mut splits,
        &mut [0; 7],
    )?;
    Ok(docket.standing())
}

fn every_standing<B: EditableBook>(rt: &impl Abort, heap: Global) -> Result<(), Fail> {
    let model = model_bytes();
    let calls = calls(heap, &model, &sample::REFUTATION)?;
    assert_eq!(rt; standing_after::<B>(heap, &calls, 10)?, Standing::Open);
    assert_eq!(rt; standing_after::<B>(heap, &calls, 11)?, Standing::Shown);
    assert_eq!(rt; standing_after::<B>(heap, &calls, 12)?, Standing::Shown);
    assert_eq!(rt; standing_after::<B>(heap, &calls, 13)?, Standing::Open);
    assert_eq!(rt; standing_after::<B>(heap, &calls, 14)?, Standing::Refuted);
    assert_eq!(rt; standing_after::<B>(heap, &calls, 15)?, Standing::Refuted);
    assert_eq!(rt; standing_after::<B>(heap, &calls, 16)?, Standing::Open);
    Ok(())
}

#[test]
fn in_a_slot_table(rt: HostRuntime) -> Result<(), Fail> {
    every_standing::<SlotTable>(&rt, rt.alloc())
}

#[test]
fn in_a_journal(rt: HostRuntime) -> Result<(), Fail> {
    every_standing::<Journal>(&rt, rt.alloc())
}
