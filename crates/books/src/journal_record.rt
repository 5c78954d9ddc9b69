// The records of a journal.
ghost use Rattle.std.specs.Prelude.{◌≡◌};
ghost use Rattle.books.specs.Replay.{node_in};

use crate::marked::MarkedNode;
use logic::records::Entry;

// A node with its mark, an entry, or the number of an entry that is struck.
#[derive(Clone, Copy)]
pub(crate) enum Record {
    Node(MarkedNode),
    Entry(Entry),
    Strike(u16),
}

impl Record {
    // The node, if the record is of a node.
    pub(crate) fn node(&self) -> Option<MarkedNode>
        ensures { result ≡ node_in self.now }
    {
        match *self {
            Record::Node(node) => Some(node),
            Record::Entry(_) | Record::Strike(_) => None,
        }
    }
}
