// Why a call of an editable book is refused. The place that is reported is the count of nodes, the count
// of entries, or the number of the entry to strike.
ghost use Rattle.std.specs.Prelude.{◌≡◌};
ghost use Rattle.books.specs.Faults.{unfit_number, offer_fault_number, offer_fault_place, strike_fault_number, strike_fault_place};

use crate::write::Offered;
use logic::records::{RawEntry, RawNode};
use logic::refusal::{Refusal, Report};
use std::marker::PhantomData;
use thiserror::Error;

// Why a record does not fit a book that has room for it.
#[derive(Clone, Copy, Debug, PartialEq, Eq, Error)]
pub enum Unfit {
    #[error("unknown kind")]
    UnknownKind,
    #[error("an operand over its limit, or unused and not 0")]
    OutOfRange,
    #[error("a node operand that does not exist")]
    NoSuchNode,
    #[error("T out of place")]
    TypicalMisplaced,
}

// Why an offered record is refused.
#[derive(Clone, Copy, Debug, PartialEq, Eq, Error)]
pub enum Reason {
    #[error("the book is full")]
    Full,
    #[error(transparent)]
    Unfit(Unfit),
}

// Why an offer of an R (a node or an entry) is refused, with the count of such records in the book.
#[derive(Clone, Copy, Debug, PartialEq, Eq, Error)]
#[error_bound(R: Offered)]
#[error("{} {count}: {reason}", R::NAME)]
pub struct OfferFault<R> {
    pub reason: Reason,
    pub count: u16,
    offered: PhantomData<R>,
}

pub type NodeFault = OfferFault<RawNode>;

pub type EnterFault = OfferFault<RawEntry>;

#[derive(Clone, Copy, Debug, PartialEq, Eq, Error)]
pub enum StrikeFault {
    #[error("entry {0} was never entered")]
    NeverEntered(u16),
    #[error("entry {0} is struck already")]
    Struck(u16),
}

// The number of the refusal.
impl From<Unfit> for u8 {
    ghost from_gives = { λ unfit n. n ≡ unfit_number unfit };

    fn from(unfit: Unfit) -> u8 {
        match unfit {
            Unfit::UnknownKind => 2,
            Unfit::OutOfRange => 3,
            Unfit::NoSuchNode => 4,
            Unfit::TypicalMisplaced => 5,
        }
    }
}

impl<R> OfferFault<R> {
    pub fn new(reason: Reason, count: u16) -> OfferFault<R>
        ensures reason { result.reason ≡ reason }
        ensures count { result.count ≡ count }
    {
        OfferFault {
            reason,
            count,
            offered: PhantomData,
        }
    }
}

impl<R> Refusal for OfferFault<R> {
    ghost number = { offer_fault_number };

    ghost place = { offer_fault_place };

    fn report(&self) -> Report {
        Report {
            number: match self.reason {
                Reason::Full => 1,
                Reason::Unfit(unfit) => u8::from(unfit),
            },
            place: self.count as usize,
        }
    }
}

impl Refusal for StrikeFault {
    ghost number = { strike_fault_number };

    ghost place = { strike_fault_place };

    fn report(&self) -> Report {
        let (StrikeFault::NeverEntered(i) | StrikeFault::Struck(i)) = *self;
        Report {
            number: 6,
            place: i as usize,
        }
    }
}
