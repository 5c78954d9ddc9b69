// Marking: the verdict on a hand-in, from its bytes alone.
ghost use Rattle.std.specs.Prelude.{◌≡◌, ◌<◌, ◌^◌};
ghost use Rattle.verdict.specs.declared.Verdict.TheVariants as verdict;
ghost use Rattle.verdict.specs.MarkFaults.{mark_fault_number, mark_fault_place};
ghost use Rattle.verdict.specs.Marks.{marked_part, TableauAnswer, ModelAnswer, TableauMark, ModelMark};

use crate::Verdict;
use crate::mark_fault::MarkFault;
use judge::lists::Blank;
use judge::refute::refute;
use judge::show::show;
use logic::refusal::{Refusal, Report};
use orders::pairs::Pairs;
use sealed::sealed_book::SealedBook;

/// How many bytes of a file count.
pub const WHOLE: usize = 65535;

/// The length of each working list.
pub const RECORDS: usize = 4096;

// The first 65,535 bytes.
fn first(bytes: &[u8]) -> &[u8]
    ensures { result.now ≡ marked_part bytes.now }
{
    bytes.get(..WHOLE).unwrap_or(bytes)
}

// Checks the book and judges the tableau: the number of entries used, or the first fault.
fn refuted(book: &[u8], steps: &[u8]) -> Result<u16, MarkFault>
    ensures { TableauAnswer book.now steps.now result }
{
    let book = SealedBook::read(book)?;
    let mut constraints = [Blank::blank(); RECORDS];
    let mut edges = [Blank::blank(); RECORDS];
    let mut splits = [Blank::blank(); RECORDS];
    let used = refute(&book, steps, &mut constraints, &mut edges, &mut splits)?;
    Ok(used.count())
}

// Checks the book, fills the pairs and judges the model: the number of elements, or the first fault.
fn satisfied(book: &[u8], model: &[u8], pairs: &[u8]) -> Result<u8, MarkFault>
    ensures { ModelAnswer book.now model.now pairs.now result }
{
    let sealed = SealedBook::read(book)?;
    let mut order = Pairs::new();
    order.fill(pairs)?;
    let mut sets = [0; RECORDS];
    Ok(show(&sealed, model, &order, &mut sets)?)
}

// The verdict of a fault: its number and its place.
fn refused(fault: MarkFault) -> Verdict
    requires { mark_fault_place fault < 2 ^ 32 }
    ensures { result ≡ verdict.Refused (mark_fault_number fault) (mark_fault_place fault) }
{
    let Report { number, place } = fault.report();
    Verdict::Refused {
        number: number as u32,
        place: place as u32,
    }
}

/// Marks a tableau against a sealed book. Only the first 65,535 bytes of each count.
pub fn mark_tableau(book: &[u8], steps: &[u8]) -> Verdict
    ensures { TableauMark (marked_part book.now) (marked_part steps.now) result }
{
    match refuted(first(book), first(steps)) {
        Ok(entries) => Verdict::Closed(entries as u32),
        Err(fault) => refused(fault),
    }
}

/// Marks a model, with its "better" in pairs, against a sealed book. Only the first 65,535 bytes of each count.
pub fn mark_model(book: &[u8], model: &[u8], pairs: &[u8]) -> Verdict
    ensures { ModelMark (marked_part book.now) (marked_part model.now)
        (marked_part pairs.now) result }
{
    match satisfied(first(book), first(model), first(pairs)) {
        Ok(elements) => Verdict::Satisfied(elements as u32),
        Err(fault) => refused(fault),
    }
}
