// What every refusal reports.
ghost use Rattle.std.specs.Prelude.{◌≡◌, ℕ};
ghost use Rattle.logic.specs.Lengths.{bad_length_number, bad_length_place};

use thiserror::Error;

// A refusal as a planner reads it. The number, 1 to 20, says why. The place says where: a count, a length, a
// record, a step, an element or a byte.
#[derive(Clone, Copy, Debug, PartialEq, Eq)]
pub struct Report {
    pub number: u8,
    pub place: usize,
}

// A fault: each type defines number and place case by case.
pub trait Refusal {
    ghost number: { Self → ℕ };

    ghost place: { Self → ℕ };

    fn report(&self) -> Report
        ensures number { result.number ≡ number self.now }
        ensures place { result.place ≡ place self.now };
}

// A wrong length of the bytes, the list or the buffer that a call was given. The type has the number of the
// refusal; the place is the length.
#[derive(Clone, Copy, Debug, PartialEq, Eq, Error)]
#[error("wrong length {0}")]
pub struct BadLength<const NUMBER: u8>(pub usize);

impl<const NUMBER: u8> Refusal for BadLength<NUMBER> {
    ghost number = { bad_length_number };

    ghost place = { bad_length_place };

    fn report(&self) -> Report {
        Report {
            number: NUMBER,
            place: self.0,
        }
    }
}
