// Why a step is refused on an open branch.
ghost use Rattle.std.specs.Prelude.{◌≡◌};
ghost use Rattle.judge.specs.declared.step_fault.StepFault.TheVariants.{Full};
ghost use Rattle.judge.specs.Faults.{step_fault_number};

use crate::lists::ListFull;
use thiserror::Error;

#[derive(Clone, Copy, Debug, PartialEq, Eq, Error)]
pub enum StepFault {
    #[error("an unknown op, or an unused operand that is not 0")]
    Malformed,
    #[error("no such entry")]
    NeverEntered,
    #[error("no such constraint, edge or label")]
    NotThere,
    #[error("the entry is struck")]
    Struck,
    #[error("no rule permits the step")]
    Misfit,
    // a list would overflow, or a label would be above 255
    #[error("no room in a working list, or no label left")]
    Full,
}

// The number of a refusal for this fault.
impl From<StepFault> for u8 {
    ghost from_gives = { λ fault n. n ≡ step_fault_number fault };

    fn from(fault: StepFault) -> u8 {
        match fault {
            StepFault::Malformed => 8,
            StepFault::NeverEntered | StepFault::NotThere | StepFault::Struck => 9,
            StepFault::Misfit => 10,
            StepFault::Full => 11,
        }
    }
}

impl From<ListFull> for StepFault {
    ghost from_gives = { λ _ fault. fault ≡ Full };

    fn from(_: ListFull) -> StepFault {
        StepFault::Full
    }
}
