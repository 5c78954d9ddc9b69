// Why bytes are not a sealed book, and why a book is not sealed.
ghost use Rattle.sealed.specs.Faults.{check_fault_number, check_fault_place};

use books::faults::Unfit;
use logic::refusal::{BadLength, Refusal, Report};
use thiserror::Error;

#[derive(Clone, Copy, Debug, PartialEq, Eq, Error)]
pub enum CheckFault {
    // with the length of the bytes
    #[error("no valid trailer in {0} bytes")]
    BadFrame(usize),
    // with the first byte of the first bad record
    #[error("record at byte {1}: {0}")]
    BadRecord(Unfit, usize),
}

// The buffer is too short.
pub type SealFault = BadLength<20>;

impl Refusal for CheckFault {
    ghost number = { check_fault_number };

    ghost place = { check_fault_place };

    fn report(&self) -> Report {
        let (number, place) = match *self {
            CheckFault::BadFrame(length) => (19, length),
            CheckFault::BadRecord(unfit, at) => (u8::from(unfit), at),
        };
        Report { number, place }
    }
}
