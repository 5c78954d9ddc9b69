// Why a hand-in is refused: the fault of the call that refused it.
ghost use Rattle.std.specs.Prelude.{◌≡◌};
ghost use Rattle.verdict.specs.MarkFaults.{mark_fault_number, mark_fault_place};
ghost use Rattle.verdict.specs.declared.mark_fault.MarkFault.TheVariants.{Check, Pairs, Refute, Show};

use judge::faults::RefuteFault;
use judge::show_faults::ShowFault;
use logic::refusal::{Refusal, Report};
use orders::faults::PairsFault;
use sealed::faults::CheckFault;
use thiserror::Error;

#[derive(Clone, Copy, Debug, PartialEq, Eq, Error)]
pub enum MarkFault {
    #[error("book: {0}")]
    Check(CheckFault),
    #[error("pairs: {0}")]
    Pairs(PairsFault),
    #[error("tableau: {0}")]
    Refute(RefuteFault),
    #[error("model: {0}")]
    Show(ShowFault),
}

impl Refusal for MarkFault {
    ghost number = { mark_fault_number };

    ghost place = { mark_fault_place };

    fn report(&self) -> Report {
        match self {
            MarkFault::Check(fault) => fault.report(),
            MarkFault::Pairs(fault) => fault.report(),
            MarkFault::Refute(fault) => fault.report(),
            MarkFault::Show(fault) => fault.report(),
        }
    }
}

// One impl for each lower fault, by hand: derived ones lack `from_gives`, which tells a clause what `?` converts to.
impl From<CheckFault> for MarkFault {
    ghost from_gives = { λ e f. f ≡ Check e };

    fn from(fault: CheckFault) -> MarkFault {
        MarkFault::Check(fault)
    }
}

impl From<PairsFault> for MarkFault {
    ghost from_gives = { λ e f. f ≡ Pairs e };

    fn from(fault: PairsFault) -> MarkFault {
        MarkFault::Pairs(fault)
    }
}

impl From<RefuteFault> for MarkFault {
    ghost from_gives = { λ e f. f ≡ Refute e };

    fn from(fault: RefuteFault) -> MarkFault {
        MarkFault::Refute(fault)
    }
}

impl From<ShowFault> for MarkFault {
    ghost from_gives = { λ e f. f ≡ Show e };

    fn from(fault: ShowFault) -> MarkFault {
        MarkFault::Show(fault)
    }
}
