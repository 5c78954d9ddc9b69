// A verdict as numbers, for callers in C.
ghost use Rattle.std.specs.Prelude.{◌≡◌};
ghost use Rattle.vuhlaten.specs.Outcomes.{outcome_of};

use verdict::Verdict;

// The kinds of verdict.
pub const CLOSED: u32 = 1;

pub const SATISFIED: u32 = 2;

pub const REFUSED: u32 = 3;

/// `struct vuhlaten_verdict` of the header.
#[repr(C)]
#[derive(Clone, Copy)]
pub struct Outcome {
    /// `CLOSED`, `SATISFIED` or `REFUSED`.
    pub kind: u32,
    /// The number of the refusal, otherwise 0.
    pub number: u32,
    /// The place of the refusal, otherwise 0.
    pub place: u32,
    /// How many entries the tableau used, or how many elements the model has; 0 if refused.
    pub count: u32,
}

impl From<Verdict> for Outcome {
    ghost from_gives = { λ verdict result. result ≡ outcome_of verdict };

    fn from(verdict: Verdict) -> Outcome {
        match verdict {
            Verdict::Closed(count) => Outcome {
                kind: CLOSED,
                number: 0,
                place: 0,
                count,
            },
            Verdict::Satisfied(count) => Outcome {
                kind: SATISFIED,
                number: 0,
                place: 0,
                count,
            },
            Verdict::Refused { number, place } => Outcome {
                kind: REFUSED,
                number,
                place,
                count: 0,
            },
        }
    }
}
