// An order by pairs: the bytes have, for each element, the set of the elements that are better.
ghost use Rattle.std.specs.Prelude.{◌≡◌, ◌↔◌, ℕ, ◌<◌, ◌≤◌, length, IsTrue};
ghost use Rattle.orders.specs.Masks.{by_rows, Tabulates};
ghost use Rattle.orders.specs.PairLaws.{order_of_pairs, TransitiveAt, LawfulRow, FirstUnlawful, PairsLawful};
ghost use Rattle.orders.specs.Answers.{PairsRefused};

use crate::faults::PairsFault;
use crate::filled::{Encoding, Filled};
use crate::masks::{ELEMENTS, contains, includes, within};
use crate::rows::Rows;
use logic::bytes::u32_at;

// The bytes of one element: the mask of its better elements, low byte first.
const ROW: usize = 4;

const LONGEST: usize = ROW * ELEMENTS as usize;

// The encoding by pairs: for each of 1 to 32 elements the set of its better elements as a mask of four bytes.
pub struct ByPairs;

pub type Pairs = Filled<ByPairs>;

// Offered rows of at most 32 elements: unlike `Rows`, they need not be strict.
#[derive(Drop)]
struct OfferedRows {
    size: u8,
    rows: [u32; 32],
    ghost few: { size ≤ 32 },
}

impl OfferedRows {
    // Whether the row includes the row of each of its elements.
    fn closed(&self, row: u32) -> bool
        ensures { IsTrue result ↔ ((y : ℕ) → y < self.now.size → TransitiveAt self.now.rows row y) }
    {
        (0..self.size).all(|y| !contains(row, y) || includes(row, self.rows[y as usize]))
    }

    // Whether row x is lawful.
    fn lawful_row(&self, x: u8) -> bool
        requires { x < self.now.size }
        ensures { IsTrue result ↔ LawfulRow (by_rows self.now.size self.now.rows) x }
    {
        let row = self.rows[x as usize];
        within(row, self.size) && !contains(row, x) && self.closed(row)
    }

    // The lowest row that is not lawful, if there is one.
    fn first_unlawful(&self) -> Option<u8>
        ensures { FirstUnlawful (by_rows self.now.size self.now.rows) result }
    {
        (0..self.size).find(|x| !self.lawful_row(*x))
    }
}

// The rows of the bytes, and empty ones up to 32.
fn rows_of(bytes: &[u8]) -> [u32; 32]
    requires { length bytes.now ≤ 128 }
    ensures { Tabulates (order_of_pairs bytes.now).better result }
{
    std::array::from_fn(|x| u32_at(bytes, ROW * x))
}

impl Encoding for ByPairs {
    type Fault = PairsFault;

    ghost Lawful = { PairsLawful };

    ghost order_of_bytes = { order_of_pairs };

    ghost Refused = { PairsRefused };

    fn read(bytes: &[u8]) -> Result<Rows, PairsFault> {
        let n = bytes.len();
        if n % ROW != 0 || n < ROW || n > LONGEST {
            return Err(PairsFault::BadLength(n));
        }
        let offer = OfferedRows {
            size: (n / ROW) as u8,
            rows: rows_of(bytes),
        };
        if let Some(x) = offer.first_unlawful() {
            return Err(PairsFault::Unlawful(x));
        }
        Ok(Rows::of(offer.size, offer.rows))
    }
}
