// The calls of the marker.
ghost use Rattle.std.specs.Prelude.{◌≡◌};
ghost use Rattle.verdict.specs.declared.Verdict.{Verdict};
ghost use Rattle.verdict.specs.Marks.{marked_part, TableauMark, ModelMark};
ghost use Rattle.vuhlaten.specs.Buffers.{LineWritten};
ghost use Rattle.vuhlaten.specs.Outcomes.{outcome_of};

use crate::outcome::Outcome;
use verdict::Verdict;
use verdict::line::line;
use verdict::mark::{mark_model, mark_tableau};

// Writes the line of a verdict into a buffer and returns its length, or 0 if the buffer is too short.
fn write_line(verdict: Verdict, out: &mut [u8]) -> usize
    ensures { LineWritten verdict out.old out.new result }
{
    line(verdict, out).unwrap_or(0)
}

/// Marks a tableau against a sealed book, and writes the line of the verdict.
#[unsafe(no_mangle)]
pub extern "C" fn vuhlaten_mark_tableau(book: &[u8], steps: &[u8], out: &mut [u8]) -> usize
    ensures { (v : Verdict) × TableauMark (marked_part book.now) (marked_part steps.now) v
        × LineWritten v out.old out.new result }
{
    write_line(mark_tableau(book, steps), out)
}

/// Marks a model, with its "better" in pairs, against a sealed book, and writes the line of the verdict.
#[unsafe(no_mangle)]
pub extern "C" fn vuhlaten_mark_model(
    book: &[u8],
    model: &[u8],
    pairs: &[u8],
    out: &mut [u8],
) -> usize
    ensures { (v : Verdict)
        × ModelMark (marked_part book.now) (marked_part model.now) (marked_part pairs.now) v
        × LineWritten v out.old out.new result }
{
    write_line(mark_model(book, model, pairs), out)
}

/// Marks a tableau as `vuhlaten_mark_tableau` does, and returns the verdict as numbers.
#[unsafe(no_mangle)]
pub extern "C" fn vuhlaten_judge_tableau(book: &[u8], steps: &[u8]) -> Outcome
    ensures { (v : Verdict) × TableauMark (marked_part book.now) (marked_part steps.now) v
        × (result ≡ outcome_of v) }
{
    mark_tableau(book, steps).into()
}

/// Marks a model as `vuhlaten_mark_model` does, and returns the verdict as numbers.
#[unsafe(no_mangle)]
pub extern "C" fn vuhlaten_judge_model(book: &[u8], model: &[u8], pairs: &[u8]) -> Outcome
    ensures { (v : Verdict)
        × ModelMark (marked_part book.now) (marked_part model.now) (marked_part pairs.now) v
        × (result ≡ outcome_of v) }
{
    mark_model(book, model, pairs).into()
}
