// Why a tableau is refused.
ghost use Rattle.judge.specs.Faults.{refute_fault_number, refute_fault_place};

use crate::step_fault::StepFault;
use logic::refusal::{Refusal, Report};
use thiserror::Error;

#[derive(Clone, Copy, Debug, PartialEq, Eq, Error)]
pub enum RefuteFault {
    // with the length of the bytes: not a multiple of a step's length, or too long
    #[error("wrong length {0}")]
    BadLength(usize),
    // with the number of the step, and why the open branch refuses it
    #[error("step {0}: {1}")]
    AtStep(usize, StepFault),
    // with the number of the step: the last branch closed before it
    #[error("step {0} after the last branch closed")]
    AfterClosing(usize),
    // with the count of steps: a branch is still open
    #[error("a branch is open after {0} steps")]
    NotClosed(usize),
}

impl Refusal for RefuteFault {
    ghost number = { refute_fault_number };

    ghost place = { refute_fault_place };

    fn report(&self) -> Report {
        let (number, place) = match *self {
            RefuteFault::BadLength(n) => (7, n),
            RefuteFault::AtStep(i, fault) => (u8::from(fault), i),
            RefuteFault::AfterClosing(i) => (12, i),
            RefuteFault::NotClosed(n) => (13, n),
        };
        Report { number, place }
    }
}
