// Checks a tableau step by step: it refutes its book or is refused.
ghost use Rattle.std.specs.Prelude.{◌≤◌, length, IfErr};
ghost use Rattle.judge.specs.Blanks.{lengths, lengths_of, AllBlank, SameLists};
ghost use Rattle.judge.specs.Faults.{HasNumberAndPlace};
ghost use Rattle.judge.specs.Steps.{decoded};
ghost use Rattle.judge.specs.Taking.{WorkAnswer};
ghost use Rattle.judge.specs.Traces.{Watched};
ghost use Rattle.judge.specs.Refutations.{RefuteAnswer};

use crate::faults::RefuteFault;
use crate::step::take;
use crate::steps::{LONGEST, STEP, step_of};
use crate::used::Used;
use crate::watch::{TakenStep, Unwatched, Watch};
use crate::working::{Counts, Lists, Split};
use books::book::ReadableBook;
use logic::tableau::{Constraint, Edge};

// Takes the steps of a tableau, one after the other. No record of the lists is in use at first, whatever they hold.
fn work<B: ReadableBook, W: Watch>(
    book: &B,
    bytes: &[u8],
    lists: &mut Lists,
    watch: &mut W,
) -> Result<Used, RefuteFault>
    requires { length bytes.now ≤ LONGEST }
    ensures same { SameLists lists.old lists.new }
    ensures worked { WorkAnswer (B.meaning book.now) (lengths_of lists.old)
        (decoded bytes.now) result }
    ensures watched { Watched W.transition (B.meaning book.now) (lengths_of lists.old) (decoded bytes.now)
        watch.old watch.new result }
{
    let mut used = Used::unmarked();
    let mut open = Some(Counts::start());
    for (i, chunk) in bytes.chunks_exact(STEP).enumerate() {
        let Some(at) = open else {
            return Err(RefuteFault::AfterClosing(i));
        };
        let step = step_of(chunk);
        let taken = take(book, step, lists, at).map_err(|fault| RefuteFault::AtStep(i, fault))?;
        used.note(step);
        let taken_step = TakenStep {
            step,
            effect: taken.effect,
            pending: taken.pending(),
        };
        watch.taken(taken_step);
        open = taken.at;
    }
    match open {
        Some(_) => Err(RefuteFault::NotClosed(bytes.len() / STEP)),
        None => Ok(used),
    }
}

// Checks a tableau over the book, in three lent lists, and tells `watch` each step that is taken. The bytes are
// accepted exactly when they are the writing of a closed tableau over the book, within the limits, that fits
// the lists. Then the answer is the set of the entries that it names, and no finite preferential model makes
// them all true. Otherwise the answer is the first refusal that applies, with its number and its place.
// Whatever the lists held, they are blank afterwards.
pub fn refute_watched<B: ReadableBook, W: Watch>(
    book: &B,
    bytes: &[u8],
    constraints: &mut [Constraint],
    edges: &mut [Edge],
    splits: &mut [Split],
    watch: &mut W,
) -> Result<Used, RefuteFault>
    ensures answer { RefuteAnswer (B.ReadableBook.meaning book.now)
        (lengths constraints.old edges.old splits.old) bytes.now result }
    ensures number_and_place { IfErr result (HasNumberAndPlace bytes.now) }
    ensures blank { AllBlank (lengths constraints.old edges.old splits.old)
        constraints.new edges.new splits.new }
    ensures watched { Watched W.transition (B.ReadableBook.meaning book.now)
        (lengths constraints.old edges.old splits.old) (decoded bytes.now)
        watch.old watch.new result }
{
    let mut lists = Lists {
        constraints,
        edges,
        splits,
    };
    let n = bytes.len();
    if n % STEP != 0 || n > LONGEST {
        lists.clear();
        return Err(RefuteFault::BadLength(n));
    }
    let answer = work(book, bytes, &mut lists, watch);
    lists.clear();
    answer
}

// The same without a watcher.
pub fn refute<B: ReadableBook>(
    book: &B,
    bytes: &[u8],
    constraints: &mut [Constraint],
    edges: &mut [Edge],
    splits: &mut [Split],
) -> Result<Used, RefuteFault>
    ensures answer { RefuteAnswer (B.ReadableBook.meaning book.now)
        (lengths constraints.old edges.old splits.old) bytes.now result }
    ensures number_and_place { IfErr result (HasNumberAndPlace bytes.now) }
    ensures blank { AllBlank (lengths constraints.old edges.old splits.old)
        constraints.new edges.new splits.new }
{
    refute_watched(book, bytes, constraints, edges, splits, &mut Unwatched)
}
