// Why a hand-in is not shown to be a model: the whole fault of a lower call, or a case with its place.
ghost use Rattle.std.specs.Prelude.{◌≡◌};
ghost use Rattle.judge.specs.ShowFaults.{show_fault_number, show_fault_place};
ghost use Rattle.judge.specs.declared.show_faults.ShowFault.TheVariants.{View, Fill};

use logic::refusal::{BadLength, Refusal, Report};
use models::faults::ViewFault;
use thiserror::Error;

// The list has no place for some node: 17, with its length.
pub type FillFault = BadLength<17>;

#[derive(Clone, Copy, Debug, PartialEq, Eq, Error)]
pub enum ShowFault {
    #[error(transparent)]
    View(ViewFault),
    // with the size of the order
    #[error("the order has {0} elements, the interpretation another number")]
    OrderSize(u8),
    #[error("a list of length {} is too short", .0.0)]
    Fill(FillFault),
    // with the lowest live entry that is false
    #[error("entry {0} is false")]
    EntryFails(u16),
}

impl Refusal for ShowFault {
    ghost number = { show_fault_number };

    ghost place = { show_fault_place };

    fn report(&self) -> Report {
        let (number, place) = match self {
            ShowFault::View(fault) => return fault.report(),
            ShowFault::OrderSize(size) => (16, *size as usize),
            ShowFault::Fill(fault) => return fault.report(),
            ShowFault::EntryFails(i) => (18, *i as usize),
        };
        Report { number, place }
    }
}

// One impl for each lower fault, by hand: derived ones lack `from_gives`, which tells a clause what `?` converts to.
impl From<ViewFault> for ShowFault {
    ghost from_gives = { λ f g. g ≡ View f };

    fn from(fault: ViewFault) -> ShowFault {
        ShowFault::View(fault)
    }
}

impl From<FillFault> for ShowFault {
    ghost from_gives = { λ f g. g ≡ Fill f };

    fn from(fault: FillFault) -> ShowFault {
        ShowFault::Fill(fault)
    }
}
