// Books to read and books to edit.
ghost use Rattle.std.specs.Prelude.{◌≡◌, ◌↔◌, length, IfOk, IsOk};
ghost use Rattle.logic.specs.Books.{Book, empty, node_at, stored_at};
ghost use Rattle.logic.specs.Lawful.{Lawful};
ghost use Rattle.logic.specs.Refusals.{NodeFits, EntryFits};
ghost use Rattle.books.specs.Answers.{nodes, entries, OfferAnswer, StrikeAnswer};

use crate::faults::{EnterFault, NodeFault, StrikeFault};
use logic::records::{Node, RawEntry, RawNode, StoredEntry};
use std::alloc::{AllocError, Global};

// A book to read. Its meaning is a lawful book: a list of nodes and a list of entries with live marks. A
// query changes nothing, and its answer depends on the meaning alone.
pub trait ReadableBook {
    ghost meaning: { Self → Book };

    // Each implementation gives the evidence.
    ghost lawful: { (b : Self) → Lawful (meaning b) };

    fn node_count(&self) -> u16
        ensures { result ≡ length (meaning self.now).nodes };

    fn entry_count(&self) -> u16
        ensures { result ≡ length (meaning self.now).entries };

    // Node i, or Absent past the end.
    fn node_at(&self, i: u16) -> Node
        ensures { result ≡ node_at (meaning self.now) i };

    // Entry i with its live mark, or Absent and not live past the end.
    fn entry_at(&self, i: u16) -> StoredEntry
        ensures { result ≡ stored_at (meaning self.now) i };
}

// A book to which nodes and entries can be added, and whose entries can be struck. `write::Offered` is one call for
// nodes and for entries.
pub trait EditableBook: ReadableBook + Sized + Drop {
    // An empty book. Only this call can fail for lack of memory.
    fn new(heap: Global) -> Result<Self, AllocError>
        ensures { IfOk result (λ b. Self.ReadableBook.meaning b ≡ empty) };

    // Appends a node and returns its number; granted exactly when the book stays lawful.
    fn node(&mut self, raw: RawNode) -> Result<u16, NodeFault>
        ensures answer { OfferAnswer nodes (Self.ReadableBook.meaning self.old)
            (Self.ReadableBook.meaning self.new) raw result }
        ensures exact { IsOk result ↔ NodeFits (Self.ReadableBook.meaning self.old) raw };

    // Appends an entry, live, and returns its number; granted exactly when the book stays lawful.
    fn enter(&mut self, raw: RawEntry) -> Result<u16, EnterFault>
        ensures answer { OfferAnswer entries (Self.ReadableBook.meaning self.old)
            (Self.ReadableBook.meaning self.new) raw result }
        ensures exact { IsOk result ↔ EntryFits (Self.ReadableBook.meaning self.old) raw };

    // Clears the live mark of entry i.
    fn strike(&mut self, i: u16) -> Result<(), StrikeFault>
        ensures { StrikeAnswer (Self.ReadableBook.meaning self.old)
            (Self.ReadableBook.meaning self.new) i result };
}
