// The working lists of a tableau: constraints, edges and pending splits.
ghost use Rattle.std.specs.Prelude.{◌≡◌};
ghost use Rattle.judge.specs.Blanks.{no_constraint, no_edge, no_split, NoneInUse, SameLists};
ghost use Rattle.judge.specs.WorkingLists.{labelled};

use crate::lists::{Blank, clear};
use crate::step_fault::StepFault;
use logic::limits::{INDIVIDUALS, LABELS};
use logic::tableau::{Constraint, Edge, Form};

// A pending split: the counts to restore, and the alternative that is still to be closed. 16 bits hold every count
// within the step limit; a list of small records is blanked faster.
#[derive(Clone, Copy)]
pub struct Split {
    pub constraints: u16,
    pub edges: u16,
    pub labels: u16,
    pub second: Constraint,
}

// The three lent lists. Each method promises that they stay the slices that were lent (SameLists).
#[derive(Drop)]
pub(crate) struct Lists<'a> {
    pub(crate) constraints: &'a mut [Constraint],
    pub(crate) edges: &'a mut [Edge],
    pub(crate) splits: &'a mut [Split],
}

// How many records of each list are in use, and how many labels there are. Kept outside `Lists` because a
// closing step restores them, and there are none once the last branch is closed.
#[derive(Clone, Copy)]
pub(crate) struct Counts {
    pub(crate) constraints: usize,
    pub(crate) edges: usize,
    pub(crate) splits: usize,
    pub(crate) labels: u16,
}

impl Counts {
    // The counts at the start: the individuals alone.
    pub(crate) fn start() -> Counts
        ensures { result ≡ record { constraints = 0; edges = 0; splits = 0; labels = INDIVIDUALS } }
    {
        Counts {
            constraints: 0,
            edges: 0,
            splits: 0,
            labels: INDIVIDUALS,
        }
    }

    // A new label, and the counts with it, if a label is left.
    pub(crate) fn with_label(self) -> Result<(u8, Counts), StepFault>
        ensures { result ≡ labelled self }
    {
        if self.labels < LABELS {
            let counts = Counts {
                labels: self.labels + 1,
                ..self
            };
            Ok((self.labels as u8, counts))
        } else {
            Err(StepFault::Full)
        }
    }
}

impl Lists<'_> {
    // Blanks the three lists.
    pub(crate) fn clear(&mut self)
        ensures same { SameLists self.old self.new }
        ensures blank { NoneInUse self.new }
    {
        clear(self.constraints);
        clear(self.edges);
        clear(self.splits);
    }
}

impl Blank for Constraint {
    ghost zeroed = { no_constraint };

    fn blank() -> Constraint {
        Constraint {
            label: 0,
            form: Form::Holds,
            node: 0,
        }
    }
}

impl Blank for Edge {
    ghost zeroed = { no_edge };

    fn blank() -> Edge {
        Edge {
            from: 0,
            role: 0,
            to: 0,
        }
    }
}

impl Blank for Split {
    ghost zeroed = { no_split };

    fn blank() -> Split {
        Split {
            constraints: 0,
            edges: 0,
            labels: 0,
            second: Constraint::blank(),
        }
    }
}
