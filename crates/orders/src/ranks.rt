// An order by ranks: the bytes have a rank for each element, and a lower rank is better.
ghost use Rattle.std.specs.Prelude.{◌≡◌, ◌≤◌, length, nat_lt};
ghost use Rattle.logic.specs.Bytes.{byte};
ghost use Rattle.orders.specs.Masks.{Tabulates};
ghost use Rattle.orders.specs.RankLaws.{order_of_ranks, RanksLawful};
ghost use Rattle.orders.specs.Answers.{RanksRefused};

use crate::faults::RanksFault;
use crate::filled::{Encoding, Filled};
use crate::masks::{ELEMENTS, Property, mask_of};
use crate::rows::Rows;
use logic::bytes::byte_at;
use logic::refusal::BadLength;

const LIMIT: usize = ELEMENTS as usize;

// The encoding by ranks: one byte for each of 1 to 32 elements, its rank.
pub struct ByRanks;

pub type Ranks = Filled<ByRanks>;

// Whether rank a is better than rank b.
fn beats(a: u8, b: u8) -> bool
    ensures { result ≡ nat_lt a b }
{
    a < b
}

// The property of having a rank lower than `rank`.
#[derive(Drop)]
struct LowerThan<'a> {
    ranks: &'a [u8],
    rank: u8,
}

impl<'a> Property for LowerThan<'a> {
    ghost holds = { λ p y. nat_lt (byte p.ranks.now y) p.rank };

    fn test(&self, y: u8) -> bool {
        beats(byte_at(self.ranks, y as usize), self.rank)
    }
}

// The elements whose rank is lower than that of x.
fn lower(ranks: &[u8], x: usize) -> u32
    requires { length ranks.now ≤ 32 }
    ensures { result ≡ (order_of_ranks ranks.now).better x }
{
    let rank = byte_at(ranks, x);
    mask_of(&LowerThan { ranks, rank }, ranks.len() as u8)
}

// For each element the elements of lower rank, and empty sets up to 32.
fn rows_of(ranks: &[u8]) -> [u32; 32]
    requires { length ranks.now ≤ 32 }
    ensures { Tabulates (order_of_ranks ranks.now).better result }
{
    std::array::from_fn(|x| lower(ranks, x))
}

impl Encoding for ByRanks {
    type Fault = RanksFault;

    ghost Lawful = { RanksLawful };

    ghost order_of_bytes = { order_of_ranks };

    ghost Refused = { RanksRefused };

    fn read(bytes: &[u8]) -> Result<Rows, RanksFault> {
        let n = bytes.len();
        if n < 1 || n > LIMIT {
            return Err(BadLength(n));
        }
        Ok(Rows::of(n as u8, rows_of(bytes)))
    }
}
