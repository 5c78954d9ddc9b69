// The trace of a tableau as a list: each step that is taken, and what it does.
ghost use Rattle.std.specs.Prelude.{take, IfOk};
ghost use Rattle.judge.specs.Blanks.{lengths};
ghost use Rattle.judge.specs.Refutations.{RefuteAnswer};
ghost use Rattle.judge.specs.Steps.{decoded};
ghost use Rattle.judge.specs.Traces.{Trace, steps_taken};

use books::book::ReadableBook;
use judge::faults::RefuteFault;
use judge::refute::refute_watched;
use judge::used::Used;
use judge::watch::{TakenStep, Watch};
use judge::working::Split;
use logic::tableau::{Constraint, Edge};
use std::alloc::{AllocError, Global};

// Keeps the steps that are taken, as long as there is memory for them.
#[derive(Drop)]
struct Recorder {
    steps: Vec<TakenStep>,
    complete: bool,
}

impl Watch for Recorder {
    ghost use Rattle.std.specs.Prelude.{◌≡◌, true, [], ◌∷◌, ◌++◌};

    // if the record is complete, it was complete before and has this step appended
    ghost transition = { λ before taken after. after.complete ≡ true →
        (before.complete ≡ true) × (after.steps.items ≡ before.steps.items ++ taken ∷ []) };

    fn taken(&mut self, taken: TakenStep) {
        self.complete = self.complete && self.steps.push(taken).is_ok();
    }
}

// The trace of a tableau, and the answer.
#[derive(Drop)]
pub(crate) struct Worked {
    pub(crate) trace: Vec<TakenStep>,
    pub(crate) answer: Result<Used, RefuteFault>,
}

// Checks a tableau over the book, in three lent lists, and records its trace.
pub(crate) fn work<B: ReadableBook>(
    heap: Global,
    book: &B,
    bytes: &[u8],
    constraints: &mut [Constraint],
    edges: &mut [Edge],
    splits: &mut [Split],
) -> Result<Worked, AllocError>
    ensures { IfOk result (λ w. Trace (B.meaning book.now)
        (lengths constraints.old edges.old splits.old)
        (take (steps_taken (decoded bytes.now) w.answer) (decoded bytes.now)) w.trace.items
        × RefuteAnswer (B.meaning book.now) (lengths constraints.old edges.old splits.old)
        bytes.now w.answer) }
{
    let mut recorder = Recorder {
        steps: Vec::new(heap),
        complete: true,
    };
    let answer = refute_watched(book, bytes, constraints, edges, splits, &mut recorder);
    if !recorder.complete {
        return Err(AllocError);
    }
    Ok(Worked {
        trace: recorder.steps,
        answer,
    })
}
