// Judges a hand-in repeatedly against one book.
ghost use Rattle.std.specs.Prelude.{◌≡◌, MatchOption};
ghost use Rattle.verdict.specs.Marks.{TableauAnswer, ModelAnswer};
ghost use Rattle.repeats.specs.Outcomes.{InMemory, outcome_of, RefutedBy, SatisfiedBy, TableauOutcome, ModelOutcome};

use crate::copy::copied;
use books::book::ReadableBook;
use books::journal::Journal;
use books::slot_table::SlotTable;
use judge::lists::Blank;
use judge::refute::refute;
use judge::show::show;
use logic::refusal::{Refusal, Report};
use orders::order::Order;
use orders::pairs::Pairs;
use sealed::sealed_book::SealedBook;
use std::alloc::Global;
use verdict::mark::RECORDS;
use verdict::mark_fault::MarkFault;

/// The outcome of a hand-in, in C's layout.
#[repr(C)]
#[derive(Clone, Copy)]
pub struct Outcome {
    /// 0: no memory for the book; 1: accepted; 2: refused.
    pub kind: u32,
    /// The number of entries used or of elements; or the refusal's number.
    pub number: u32,
    /// The refusal's place; 0 if accepted.
    pub place: usize,
}

// Judges a tableau `times` times, and once more for the answer.
fn refuted<B: ReadableBook>(book: &B, steps: &[u8], times: u32) -> Result<u16, MarkFault>
    ensures { RefutedBy (B.meaning book.now) steps.now result }
{
    let mut constraints = [Blank::blank(); RECORDS];
    let mut edges = [Blank::blank(); RECORDS];
    let mut splits = [Blank::blank(); RECORDS];
    for _ in 0..times {
        let _ = refute(book, steps, &mut constraints, &mut edges, &mut splits);
    }
    let used = refute(book, steps, &mut constraints, &mut edges, &mut splits)?;
    Ok(used.count())
}

// Judges a model `times` times, and once more for the answer.
fn satisfied<B: ReadableBook, O: Order>(
    book: &B,
    model: &[u8],
    order: &O,
    times: u32,
) -> Result<u8, MarkFault>
    ensures { SatisfiedBy (B.meaning book.now) model.now (O.meaning order.now) result }
{
    let mut sets = [0; RECORDS];
    for _ in 0..times {
        let _ = show(book, model, order, &mut sets);
    }
    Ok(show(book, model, order, &mut sets)?)
}

fn accepted(number: u32) -> Outcome
    ensures { result ≡ outcome_of (Ok number) }
{
    Outcome {
        kind: 1,
        number,
        place: 0,
    }
}

fn refused(fault: MarkFault) -> Outcome
    ensures { result ≡ outcome_of (Err fault) }
{
    let Report { number, place } = fault.report();
    Outcome {
        kind: 2,
        number: number as u32,
        place,
    }
}

const NO_MEMORY: Outcome = Outcome {
    kind: 0,
    number: 0,
    place: 0,
};

// The values of `kept`: how the book is kept. Any other number: in its sealed bytes.
const SLOT_TABLE: u8 = 1;

const JOURNAL: u8 = 2;

// The marker's answer to a tableau; `None` if memory runs out.
fn tableau(
    heap: Global,
    kept: u8,
    times: u32,
    book: &[u8],
    steps: &[u8],
) -> Option<Result<u16, MarkFault>>
    ensures { MatchOption result (InMemory kept) (TableauAnswer book.now steps.now) }
{
    let sealed = match SealedBook::read(book) {
        Ok(sealed) => sealed,
        Err(fault) => return Some(Err(MarkFault::Check(fault))),
    };
    Some(match kept {
        SLOT_TABLE => refuted(
            &copied::<SealedBook, SlotTable>(heap, &sealed)?,
            steps,
            times,
        ),
        JOURNAL => refuted(&copied::<SealedBook, Journal>(heap, &sealed)?, steps, times),
        _ => refuted(&sealed, steps, times),
    })
}

// The marker's answer to a model; `None` if memory runs out.
fn model(
    heap: Global,
    kept: u8,
    times: u32,
    book: &[u8],
    bytes: &[u8],
    pairs: &[u8],
) -> Option<Result<u8, MarkFault>>
    ensures { MatchOption result (InMemory kept) (ModelAnswer book.now bytes.now pairs.now) }
{
    let sealed = match SealedBook::read(book) {
        Ok(sealed) => sealed,
        Err(fault) => return Some(Err(MarkFault::Check(fault))),
    };
    let mut order = Pairs::new();
    if let Err(fault) = order.fill(pairs) {
        return Some(Err(MarkFault::Pairs(fault)));
    }
    Some(match kept {
        SLOT_TABLE => satisfied(
            &copied::<SealedBook, SlotTable>(heap, &sealed)?,
            bytes,
            &order,
            times,
        ),
        JOURNAL => satisfied(
            &copied::<SealedBook, Journal>(heap, &sealed)?,
            bytes,
            &order,
            times,
        ),
        _ => satisfied(&sealed, bytes, &order, times),
    })
}

/// Judges a tableau `times` + 1 times, against the sealed book as `kept` says.
#[unsafe(no_mangle)]
pub extern "C" fn vuhlaten_repeat_tableau(
    heap: Global,
    kept: u8,
    times: u32,
    book: &[u8],
    steps: &[u8],
) -> Outcome
    ensures { TableauOutcome kept book.now steps.now result }
{
    match tableau(heap, kept, times, book, steps) {
        Some(Ok(entries)) => accepted(entries as u32),
        Some(Err(fault)) => refused(fault),
        None => NO_MEMORY,
    }
}

/// Judges a model, with its "better" in pairs, `times` + 1 times, against the sealed book as `kept` says.
#[unsafe(no_mangle)]
pub extern "C" fn vuhlaten_repeat_model(
    heap: Global,
    kept: u8,
    times: u32,
    book: &[u8],
    bytes: &[u8],
    pairs: &[u8],
) -> Outcome
    ensures { ModelOutcome kept book.now bytes.now pairs.now result }
{
    match model(heap, kept, times, book, bytes, pairs) {
        Some(Ok(elements)) => accepted(elements as u32),
        Some(Err(fault)) => refused(fault),
        None => NO_MEMORY,
    }
}
