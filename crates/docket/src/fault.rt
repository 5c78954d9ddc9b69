// Why a docket refuses a call: the call, with the whole fault of the book or of the judge.
ghost use Rattle.std.specs.Prelude.{◌≡◌};
ghost use Rattle.docket.specs.Faults.{fault_number, fault_place};
ghost use Rattle.docket.specs.declared.fault.Fault.TheVariants.{Node, Enter, Strike, Refute, Show};

use books::faults::{EnterFault, NodeFault, StrikeFault};
use judge::faults::RefuteFault;
use judge::show_faults::ShowFault;
use logic::refusal::{Refusal, Report};
use thiserror::Error;

#[derive(Clone, Copy, Debug, PartialEq, Eq, Error)]
pub enum Fault {
    #[error(transparent)]
    Node(NodeFault),
    #[error(transparent)]
    Enter(EnterFault),
    #[error(transparent)]
    Strike(StrikeFault),
    #[error("tableau: {0}")]
    Refute(RefuteFault),
    #[error("model: {0}")]
    Show(ShowFault),
}

impl Refusal for Fault {
    ghost number = { fault_number };

    ghost place = { fault_place };

    fn report(&self) -> Report {
        match self {
            Fault::Node(fault) => fault.report(),
            Fault::Enter(fault) => fault.report(),
            Fault::Strike(fault) => fault.report(),
            Fault::Refute(fault) => fault.report(),
            Fault::Show(fault) => fault.report(),
        }
    }
}

// One impl for each lower fault, by hand: derived ones lack `from_gives`, which tells a clause what `?` converts to.
impl From<NodeFault> for Fault {
    ghost from_gives = { λ e f. f ≡ Node e };

    fn from(fault: NodeFault) -> Fault {
        Fault::Node(fault)
    }
}

impl From<EnterFault> for Fault {
    ghost from_gives = { λ e f. f ≡ Enter e };

    fn from(fault: EnterFault) -> Fault {
        Fault::Enter(fault)
    }
}

impl From<StrikeFault> for Fault {
    ghost from_gives = { λ e f. f ≡ Strike e };

    fn from(fault: StrikeFault) -> Fault {
        Fault::Strike(fault)
    }
}

impl From<RefuteFault> for Fault {
    ghost from_gives = { λ e f. f ≡ Refute e };

    fn from(fault: RefuteFault) -> Fault {
        Fault::Refute(fault)
    }
}

impl From<ShowFault> for Fault {
    ghost from_gives = { λ e f. f ≡ Show e };

    fn from(fault: ShowFault) -> Fault {
        Fault::Show(fault)
    }
}
