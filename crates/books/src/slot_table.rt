// An editable book that keeps each record in a slot of its own, each entry with its live mark.
ghost use Rattle.std.specs.Prelude.{◌≡◌, ◌≤◌, vec_len, vec_capacity};
ghost use Rattle.logic.specs.Concepts.{plain_marks};
ghost use Rattle.logic.specs.Bounds.{node_limit, entry_limit};
ghost use Rattle.logic.specs.Lawful.{Lawful};
ghost use Rattle.books.specs.Marks.{nodes_of, marks_of_nodes};
ghost use Rattle.logic.proofs.Deciding.{lawful_known};

use crate::book::{EditableBook, ReadableBook};
use crate::entries::{strike_entry, taken};
use crate::faults::{EnterFault, NodeFault, StrikeFault};
use crate::lists::item_or;
use crate::marked::{MarkedBook, MarkedNode, NO_NODE, may_strike, offered_entry, offered_node};
use logic::limits::{ENTRIES, NODES};
use logic::records::{NO_STORED_ENTRY, Node, RawEntry, RawNode, StoredEntry};
use std::alloc::{AllocError, Global};

// The memory of all records is reserved when the table is made.
#[derive(Drop)]
pub struct SlotTable {
    nodes: Vec<MarkedNode>,
    entries: Vec<StoredEntry>,
    ghost node_room: { node_limit ≤ vec_capacity nodes },
    ghost entry_room: { entry_limit ≤ vec_capacity entries },
    ghost few_nodes: { vec_len nodes ≤ node_limit },
    ghost few_entries: { vec_len entries ≤ entry_limit },
    ghost marked: { marks_of_nodes nodes.items ≡ plain_marks (nodes_of nodes.items) },
    ghost lawful: { ∥ Lawful (record { nodes = nodes_of nodes.items; entries = entries.items }) ∥₁ },
}

impl ReadableBook for SlotTable {
    ghost meaning = { λ t. record { nodes = nodes_of t.nodes.items; entries = t.entries.items } };

    ghost lawful = { λ t. lawful_known _ t.lawful };

    fn node_count(&self) -> u16 {
        self.nodes.len() as u16
    }

    fn entry_count(&self) -> u16 {
        self.entries.len() as u16
    }

    fn node_at(&self, i: u16) -> Node {
        item_or(&self.nodes, i, NO_NODE).node
    }

    fn entry_at(&self, i: u16) -> StoredEntry {
        item_or(&self.entries, i, NO_STORED_ENTRY)
    }
}

impl MarkedBook for SlotTable {
    fn plain_at(&self, i: u16) -> bool {
        item_or(&self.nodes, i, NO_NODE).plain
    }
}

impl EditableBook for SlotTable {
    fn new(heap: Global) -> Result<SlotTable, AllocError> {
        let nodes = Vec::with_capacity(heap, NODES as usize)?;
        let entries = Vec::with_capacity(heap, ENTRIES as usize)?;
        Ok(SlotTable { nodes, entries })
    }

    fn node(&mut self, raw: RawNode) -> Result<u16, NodeFault> {
        let count = self.node_count();
        let node = offered_node(self, raw)?;
        self.nodes.push_reserved(node);
        Ok(count)
    }

    fn enter(&mut self, raw: RawEntry) -> Result<u16, EnterFault> {
        let count = self.entry_count();
        let entry = offered_entry(self, raw)?;
        self.entries.push_reserved(taken(entry));
        Ok(count)
    }

    fn strike(&mut self, i: u16) -> Result<(), StrikeFault> {
        may_strike(self, i)?;
        strike_entry(&mut self.entries, i);
        Ok(())
    }
}
