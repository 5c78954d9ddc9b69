// Reading records at an offset of the bytes. A record is cut out first, so that its length is fixed and the compiler can
// leave out the tests of the end.
ghost use Rattle.std.specs.Prelude.{◌≡◌, ◌+◌, ◌-◌, ◌≤◌, nat_lt, length, if◌then◌else◌};
ghost use Rattle.sealed.specs.Writing.{struck_mark};
ghost use Rattle.sealed.specs.Reading.{raw_node_at, raw_entry_at, stored_at_offset};

use crate::counts::{ENTRY, NODE, STRUCK};
use logic::bytes::u16_at;
use logic::records::{Entry, RawEntry, RawNode, StoredEntry};

// The node that is written at an offset.
pub(crate) fn raw_node_at(bytes: &[u8], i: usize) -> RawNode
    requires { i + 5 ≤ length bytes.now }
    ensures { result ≡ raw_node_at bytes.now i }
{
    let record = &bytes[i..i + NODE];
    RawNode {
        kind: record[0],
        a: u16_at(record, 1),
        b: u16_at(record, 3),
    }
}

// The entry that is written at an offset, whether it is struck or not.
pub(crate) fn raw_entry_at(bytes: &[u8], i: usize) -> RawEntry
    requires { i + 7 ≤ length bytes.now }
    ensures { result ≡ raw_entry_at bytes.now i }
{
    let record = &bytes[i..i + ENTRY];
    RawEntry {
        kind: entry_kind(record[0]),
        a: u16_at(record, 1),
        b: u16_at(record, 3),
        c: u16_at(record, 5),
    }
}

// The kind without the mark of a struck entry.
fn entry_kind(byte: u8) -> u8
    ensures { result ≡ (if nat_lt byte struck_mark then byte else byte - struck_mark) }
{
    if byte < STRUCK { byte } else { byte - STRUCK }
}

// The entry that is written at an offset, with its live mark.
pub(crate) fn stored_at(bytes: &[u8], i: usize) -> StoredEntry
    requires { i + 7 ≤ length bytes.now }
    ensures { result ≡ stored_at_offset bytes.now i }
{
    StoredEntry {
        entry: Entry::from(raw_entry_at(bytes, i)),
        live: bytes[i] < STRUCK,
    }
}
