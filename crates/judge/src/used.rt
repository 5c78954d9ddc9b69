// The entries that a tableau names.
ghost use Rattle.std.specs.Prelude.{◌≡◌, ℕ, false, replicate};
ghost use Rattle.judge.specs.Members.{member, member_count, with_named};

use crate::ops::Op;
use logic::limits::ENTRIES;
use logic::tableau::Step;

// A mark for each number that an entry can have.
const MARKS: usize = ENTRIES as usize;

// A set of entries, in fixed memory.
#[derive(Clone, Copy)]
pub struct Used {
    marks: [bool; MARKS],
}

impl Used {
    // The empty set.
    pub fn new() -> Used
        ensures { (i : ℕ) → member result i ≡ false }
    {
        Used::unmarked()
    }

    // The same; the contract speaks of the marks.
    pub(crate) fn unmarked() -> Used
        ensures { result.marks ≡ replicate MARKS false }
    {
        Used {
            marks: [false; MARKS],
        }
    }

    // Marks the entry that a step names, if it names one.
    pub(crate) fn note(&mut self, step: Step)
        ensures { self.new.marks ≡ with_named self.old.marks step }
    {
        let i = step.a as usize;
        let names = matches!(Op::try_from(step.op), Ok(Op::Assert | Op::Include));
        if names && i < self.marks.len() {
            self.marks[i] = true;
        }
    }

    // Whether entry i is in the set.
    pub fn has(&self, i: u16) -> bool
        ensures { result ≡ member self.now i }
    {
        self.marks.get(i as usize).copied().unwrap_or(false)
    }

    // How many entries are in the set.
    pub fn count(&self) -> u16
        ensures { result ≡ member_count self.now }
    {
        self.marks.iter().filter(|mark| **mark).count() as u16
    }
}
