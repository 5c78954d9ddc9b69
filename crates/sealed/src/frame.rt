// Bytes with the counts of the records in them, which end right before a trailer.
ghost use Rattle.std.specs.Prelude.{◌≡◌, ◌+◌, ◌-◌, ◌*◌, ◌<◌, ◌≤◌, false, ◌&&◌, length, MatchOption, ◌==◌, nat_le};
ghost use Rattle.logic.specs.Bounds.{node_limit, entry_limit};
ghost use Rattle.sealed.specs.Writing.{records_length, trailer_size};
ghost use Rattle.sealed.specs.Reading.{has_trailer};

use crate::bytes::{raw_node_at, stored_at};
use crate::counts::{Counts, DISTANCE, ENTRY, ENTRY_COUNT, NODE, TRAILER};
use logic::bytes::{u16_at, u32_at};
use logic::limits::{ENTRIES, NODES};
use logic::records::{NO_STORED_ENTRY, Node, StoredEntry};

// The counts are within the limits, and the bytes have room for the records and a trailer.
#[derive(Clone, Copy)]
pub(crate) struct Frame<'a> {
    pub bytes: &'a [u8],
    pub counts: Counts,
    ghost few_nodes: { counts.nodes ≤ node_limit },
    ghost few_entries: { counts.entries ≤ entry_limit },
    ghost fits: { records_length counts.nodes counts.entries ≤ length bytes.now - trailer_size },
}

// Whether a trailer with these counts and this distance fits the bytes, of which there are `len`.
fn trailer_fits(len: usize, counts: Counts, distance: u32) -> bool
    requires { TRAILER ≤ len }
    ensures { result
        ≡ nat_le counts.nodes NODES
        && (nat_le counts.entries ENTRIES
        && (distance == records_length counts.nodes counts.entries && nat_le distance (len - TRAILER))) }
{
    let few = counts.nodes <= NODES && counts.entries <= ENTRIES;
    few && distance == counts.records_length() && distance as usize <= len - TRAILER
}

impl<'a> Frame<'a> {
    ghost use Rattle.logic.specs.Books.{node_at, stored_at};
    ghost use Rattle.sealed.specs.Frames.{node_place, entry_place, book_in, EndsInTrailer};

    // The bytes and both counts, if the trailer fits.
    pub(crate) fn read(bytes: &'a [u8]) -> Option<Frame<'a>>
        ensures { MatchOption result (has_trailer bytes.now ≡ false)
            (λ f. (f.bytes.now ≡ bytes.now) × EndsInTrailer f) }
    {
        let len = bytes.len();
        if len < TRAILER {
            return None;
        }
        let counts = Counts {
            nodes: u16_at(bytes, len - TRAILER),
            entries: u16_at(bytes, len - ENTRY_COUNT),
        };
        if !trailer_fits(len, counts, u32_at(bytes, len - DISTANCE)) {
            return None;
        }
        Some(Frame { bytes, counts })
    }

    // The bytes with no records.
    pub(crate) fn empty(bytes: &'a [u8]) -> Frame<'a>
        ensures same { result.bytes.now ≡ bytes.now }
        ensures no_nodes { result.counts.nodes ≡ 0 }
        ensures no_entries { result.counts.entries ≡ 0 }
    {
        Frame {
            bytes,
            counts: Counts::default(),
        }
    }

    // Where node i begins.
    pub(crate) fn node_place(&self, i: u16) -> usize
        requires { i < self.now.counts.nodes }
        ensures place { result ≡ node_place self.now i }
        ensures within { result + 5 ≤ length self.now.bytes.now }
    {
        self.bytes.len() - TRAILER - self.counts.records_length() as usize + NODE * i as usize
    }

    // Where entry j begins.
    pub(crate) fn entry_place(&self, j: u16) -> usize
        requires { j < self.now.counts.entries }
        ensures place { result ≡ entry_place self.now j }
        ensures within { result + 7 ≤ length self.now.bytes.now }
    {
        self.bytes.len() - TRAILER - ENTRY * self.counts.entries as usize + ENTRY * j as usize
    }

    // Node i, or Absent past the end.
    #[tactic(auto, using(crate::proofs::Framing::frame_node, crate::proofs::Framing::frame_node_past))]
    pub(crate) fn node_at(&self, i: u16) -> Node
        ensures { result ≡ node_at (book_in self.now) i }
    {
        if i >= self.counts.nodes {
            return Node::Absent;
        }
        Node::from(raw_node_at(self.bytes, self.node_place(i)))
    }

    // Entry j with its live mark, or Absent and not live past the end.
    #[tactic(auto, using(crate::proofs::Framing::frame_entry, crate::proofs::Framing::frame_entry_past))]
    pub(crate) fn stored_at(&self, j: u16) -> StoredEntry
        ensures { result ≡ stored_at (book_in self.now) j }
    {
        if j >= self.counts.entries {
            return NO_STORED_ENTRY;
        }
        stored_at(self.bytes, self.entry_place(j))
    }
}
