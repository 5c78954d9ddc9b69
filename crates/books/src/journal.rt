// An editable book that only appends: a record of each node, each entry and each strike.
ghost use Rattle.std.specs.Prelude.{◌≡◌, ◌+◌, ◌<◌, ◌≤◌, [], ◌∷◌, ◌++◌, length, if◌then◌else◌, vec_len, vec_capacity, nat_eq, slice_index_or};
ghost use Rattle.logic.specs.Concepts.{plain_marks};
ghost use Rattle.logic.specs.Books.{Book, empty, stored_at, struck};
ghost use Rattle.logic.specs.Bounds.{node_limit, entry_limit};
ghost use Rattle.logic.specs.Lawful.{Lawful};
ghost use Rattle.logic.proofs.Deciding.{lawful_known};
ghost use Rattle.books.specs.Marks.{marks_of_nodes, no_node};
ghost use Rattle.books.specs.Replay.{recorded, replay, recorded_nodes, struck_count, Consistent, record_limit};

use crate::book::{EditableBook, ReadableBook};
use crate::entries::taken;
use crate::faults::{EnterFault, NodeFault, StrikeFault};
use crate::journal_record::Record;
use crate::marked::{MarkedBook, MarkedNode, NO_NODE, may_strike, offered_entry, offered_node};
use logic::limits::{ENTRIES, NODES};
use logic::records::{NO_STORED_ENTRY, Node, RawEntry, RawNode, StoredEntry};
use std::alloc::{AllocError, Global};

// A record for each node, one for each entry, and one for each entry that is struck.
const RECORDS: usize = NODES as usize + 2 * ENTRIES as usize;

// The counts of nodes and entries are kept beside the records, so that reading them needs no scan. The memory of
// all records is reserved when the journal is made.
#[derive(Drop)]
pub struct Journal {
    records: Vec<Record>,
    nodes: u16,
    entries: u16,
    ghost room: { record_limit ≤ vec_capacity records },
    ghost counted_nodes: { nodes ≡ length (replay empty records.items).nodes },
    ghost counted_entries: { entries ≡ length (replay empty records.items).entries },
    ghost counted: { vec_len records ≡ nodes + entries + struck_count (replay empty records.items).entries },
    ghost few_nodes: { nodes ≤ node_limit },
    ghost few_entries: { entries ≤ entry_limit },
    ghost marked: { marks_of_nodes (recorded_nodes records.items) ≡ plain_marks (replay empty records.items).nodes },
    ghost lawful: { ∥ Lawful (replay empty records.items) ∥₁ },
}

impl Journal {
    // Appends a record and sets both counts.
    fn append(&mut self, record: Record, nodes: u16, entries: u16)
        requires { Consistent (self.old.records.items ++ «record» ∷ [])
            (vec_len self.old.records + 1) nodes entries }
        ensures { self.new.records.items ≡ self.old.records.items ++ «record» ∷ [] }
    {
        self.records.push_reserved(record);
        self.nodes = nodes;
        self.entries = entries;
    }
}

// Node i of the records with its mark; `Absent` past the end, which is plain.
fn node_record(records: &[Record], i: u16) -> MarkedNode
    ensures { result ≡ slice_index_or (recorded_nodes records.now) i no_node }
{
    records
        .iter()
        .filter_map(|record| record.node())
        .nth(i as usize)
        .unwrap_or(NO_NODE)
}

// Entry i after entry j is struck.
fn after_strike(stored: StoredEntry, j: u16, i: u16) -> StoredEntry
    ensures { result ≡ (if nat_eq j i then struck stored else stored) }
{
    StoredEntry {
        live: stored.live && j != i,
        ..stored
    }
}

// Entry i and the count of entries, after one more record.
fn after_record(stored: StoredEntry, seen: u16, record: Record, i: u16) -> (StoredEntry, u16)
    requires { seen < RECORDS }
    ensures reads { (bk : Book) → stored ≡ stored_at bk i → seen ≡ length bk.entries
        → (result.0 ≡ stored_at (recorded bk «record») i)
        × (result.1 ≡ length (recorded bk «record»).entries) }
    ensures few { result.1 ≤ seen + 1 }
{
    match record {
        Record::Node(_) => (stored, seen),
        Record::Entry(entry) => {
            let read = if seen == i { taken(entry) } else { stored };
            (read, seen + 1)
        }
        Record::Strike(j) => (after_strike(stored, j, i), seen),
    }
}

// Entry i of the records.
fn stored_at(records: &[Record], i: u16) -> StoredEntry
    requires { length records.now ≤ RECORDS }
    ensures { result ≡ stored_at (replay empty records.now) i }
{
    // a loop, whose invariant says that `seen` stays small
    let mut stored = NO_STORED_ENTRY;
    let mut seen = 0;
    for record in records {
        (stored, seen) = after_record(stored, seen, *record, i);
    }
    stored
}

impl ReadableBook for Journal {
    ghost meaning = { λ j. replay empty j.records.items };

    ghost lawful = { λ j. lawful_known _ j.lawful };

    fn node_count(&self) -> u16 {
        self.nodes
    }

    fn entry_count(&self) -> u16 {
        self.entries
    }

    fn node_at(&self, i: u16) -> Node {
        node_record(&self.records, i).node
    }

    fn entry_at(&self, i: u16) -> StoredEntry {
        stored_at(&self.records, i)
    }
}

impl MarkedBook for Journal {
    fn plain_at(&self, i: u16) -> bool {
        node_record(&self.records, i).plain
    }
}

impl EditableBook for Journal {
    fn new(heap: Global) -> Result<Journal, AllocError> {
        let records = Vec::with_capacity(heap, RECORDS)?;
        Ok(Journal {
            records,
            nodes: 0,
            entries: 0,
        })
    }

    fn node(&mut self, raw: RawNode) -> Result<u16, NodeFault> {
        let count = self.nodes;
        let node = offered_node(self, raw)?;
        self.append(Record::Node(node), count + 1, self.entries);
        Ok(count)
    }

    fn enter(&mut self, raw: RawEntry) -> Result<u16, EnterFault> {
        let count = self.entries;
        let entry = offered_entry(self, raw)?;
        self.append(Record::Entry(entry), self.nodes, count + 1);
        Ok(count)
    }

    fn strike(&mut self, i: u16) -> Result<(), StrikeFault> {
        may_strike(self, i)?;
        self.append(Record::Strike(i), self.nodes, self.entries);
        Ok(())
    }
}
