// Watching a tableau while it is checked.
use crate::effect::Effect;
use logic::tableau::Step;

// A step that was taken.
#[derive(Clone, Copy)]
pub struct TakenStep {
    pub step: Step,
    // what it did to the current branch
    pub effect: Effect,
    // how many splits are pending after it
    pub pending: usize,
}

// A watcher: it is told of each step that is taken. A trait, since a closure would need a `requires` on the
// public call that takes it.
pub trait Watch {
    ghost use Rattle.judge.specs.declared.watch.TakenStep.{TakenStep};

    // what a watcher becomes when it is told of a step: before, step, after
    ghost transition: { Self → TakenStep → Self → Type 0 };

    fn taken(&mut self, taken: TakenStep)
        ensures { transition self.old taken self.new };
}

// A watcher that ignores what it is told of.
#[derive(Drop)]
pub(crate) struct Unwatched;

impl Watch for Unwatched {
    ghost transition = { λ _ _ _. Unit {0} };

    fn taken(&mut self, _taken: TakenStep) {}
}
