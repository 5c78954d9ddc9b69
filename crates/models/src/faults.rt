// Why bytes are not an interpretation. Each case holds the place of the refusal.
ghost use Rattle.models.specs.Faults.{view_fault_number, view_fault_place};

use logic::refusal::{Refusal, Report};
use thiserror::Error;

#[derive(Clone, Copy, Debug, PartialEq, Eq, Error)]
pub enum ViewFault {
    // with the length
    #[error("wrong length {0}")]
    BadLength(usize),
    // with the first byte of the lowest bad field
    #[error("invalid field at byte {0}")]
    BadField(usize),
}

impl Refusal for ViewFault {
    ghost number = { view_fault_number };

    ghost place = { view_fault_place };

    fn report(&self) -> Report {
        let (number, place) = match *self {
            ViewFault::BadLength(length) => (7, length),
            ViewFault::BadField(at) => (14, at),
        };
        Report { number, place }
    }
}
