// Why an order is not filled. Each case holds the place of the refusal.
ghost use Rattle.orders.specs.Faults.{pairs_fault_number, pairs_fault_place};

use logic::refusal::{BadLength, Refusal, Report};
use thiserror::Error;

#[derive(Clone, Copy, Debug, PartialEq, Eq, Error)]
pub enum PairsFault {
    // with the length
    #[error("wrong length {0}")]
    BadLength(usize),
    // with the lowest element whose set is not lawful
    #[error("element {0}: its set of better elements is not that of a strict order")]
    Unlawful(u8),
}

pub type RanksFault = BadLength<7>;

impl Refusal for PairsFault {
    ghost number = { pairs_fault_number };

    ghost place = { pairs_fault_place };

    fn report(&self) -> Report {
        let (number, place) = match *self {
            PairsFault::BadLength(length) => (7, length),
            PairsFault::Unlawful(x) => (15, x as usize),
        };
        Report { number, place }
    }
}
