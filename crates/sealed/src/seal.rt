// Writing a book as sealed bytes, without a note.
ghost use Rattle.std.specs.Prelude.{◌≡◌, ◌+◌, ◌≤◌, true, ◌++◌, length, take, drop, IfOk};
ghost use Rattle.logic.specs.Lawful.{is_entry};
ghost use Rattle.sealed.specs.Writing.{node_bytes, entry_bytes, trailer_bytes};
ghost use Rattle.sealed.specs.Checks.{SealAnswer, RoundTrip};

use crate::counts::{Counts, ENTRY, NODE, STRUCK, TRAILER};
use crate::faults::SealFault;
use books::book::ReadableBook;
use logic::records::{Node, RawEntry, RawNode, StoredEntry};
use logic::refusal::BadLength;

// The bytes of a node.
fn node_bytes(node: Node) -> [u8; NODE]
    ensures { result ≡ node_bytes node }
{
    let raw = RawNode::from(node);
    let [a, aa] = raw.a.to_le_bytes();
    let [b, bb] = raw.b.to_le_bytes();
    [raw.kind, a, aa, b, bb]
}

// The bytes of an entry, its kind marked if it is struck.
fn entry_bytes(stored: StoredEntry) -> [u8; ENTRY]
    requires { is_entry stored.entry ≡ true }
    ensures { result ≡ entry_bytes stored }
{
    let raw = RawEntry::from(stored.entry);
    let kind = if stored.live {
        raw.kind
    } else {
        raw.kind + STRUCK
    };
    let [a, aa] = raw.a.to_le_bytes();
    let [b, bb] = raw.b.to_le_bytes();
    let [c, cc] = raw.c.to_le_bytes();
    [kind, a, aa, b, bb, c, cc]
}

// Both counts, and the distance back to the first node.
fn trailer_bytes(counts: Counts) -> [u8; TRAILER]
    ensures { result ≡ trailer_bytes counts.nodes counts.entries }
{
    let [n, nn] = counts.nodes.to_le_bytes();
    let [m, mm] = counts.entries.to_le_bytes();
    let [d, dd, ddd, dddd] = counts.records_length().to_le_bytes();
    [n, nn, m, mm, d, dd, ddd, dddd]
}

// Writes bytes at an offset, leaves the rest of the buffer as it was, and returns where they end.
fn put(out: &mut [u8], at: usize, bytes: &[u8]) -> usize
    requires { at + length bytes.now ≤ length out.old }
    ensures end { result ≡ at + length bytes.now }
    ensures written { out.new ≡ take at out.old
        ++ (bytes.now ++ drop (at + length bytes.now) out.old) }
{
    let end = at + bytes.len();
    out[at..end].copy_from_slice(bytes);
    end
}

// Writes a book without a note at the front of a buffer and returns the length; the bytes past it stay unchanged.
// Refused if the buffer is too short for the book.
pub fn seal<B: ReadableBook>(book: &B, out: &mut [u8]) -> Result<usize, SealFault>
    ensures answer { SealAnswer (B.ReadableBook.meaning book.now) out.old out.new result }
    ensures trip { IfOk result (λ n. RoundTrip (B.ReadableBook.meaning book.now) (take n out.new)) }
{
    let counts = Counts {
        nodes: book.node_count(),
        entries: book.entry_count(),
    };
    if out.len() < counts.records_length() as usize + TRAILER {
        return Err(BadLength(out.len()));
    }
    let mut at = 0;
    for i in 0..counts.nodes {
        at = put(out, at, &node_bytes(book.node_at(i)));
    }
    for j in 0..counts.entries {
        at = put(out, at, &entry_bytes(book.entry_at(j)));
    }
    Ok(put(out, at, &trailer_bytes(counts)))
}
