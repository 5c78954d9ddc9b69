// Books that store for each node whether it is plain, and their tests of an offered record.
ghost use Rattle.std.specs.Prelude.{◌≡◌, ◌↔◌, IsOk};
ghost use Rattle.logic.specs.Concepts.{concepts, plain, is_typical};
ghost use Rattle.logic.specs.Books.{concept};
ghost use Rattle.logic.specs.Refusals.{NodeFits, EntryFits};
ghost use Rattle.books.specs.Answers.{IsPlainnessOf};
ghost use Rattle.books.specs.Marks.{NodeOffered, EntryOffered, MayStrike};

use crate::book::ReadableBook;
use crate::faults::{EnterFault, NodeFault, StrikeFault};
use crate::offers::{PlainOperands, judge_entry_offer, judge_node_offer, plain_node, typical_node};
use logic::records::{Entry, Node, RawEntry, RawNode};

// A node, and whether it is plain.
#[derive(Clone, Copy)]
pub(crate) struct MarkedNode {
    pub(crate) node: Node,
    pub(crate) plain: bool,
}

// The answer past the last node.
pub(crate) const NO_NODE: MarkedNode = MarkedNode {
    node: Node::Absent,
    plain: true,
};

pub(crate) trait MarkedBook: ReadableBook {
    // Whether node i is plain; past the end it is.
    fn plain_at(&self, i: u16) -> bool
        ensures { result ≡ plain (concept (Self.ReadableBook.meaning self.now) i) };
}

// Whether the nodes a and b are plain.
fn plain_operands<B: MarkedBook>(book: &B, a: u16, b: u16) -> PlainOperands
    ensures { IsPlainnessOf (concepts (B.ReadableBook.meaning book.now).nodes) a b result }
{
    PlainOperands {
        plain_a: book.plain_at(a),
        plain_b: book.plain_at(b),
    }
}

// Whether node i is T(c) for some c.
fn typical_at<B: ReadableBook>(book: &B, i: u16) -> bool
    ensures { result ≡ is_typical (concept (B.meaning book.now) i) }
{
    typical_node(book.node_at(i))
}

// The offered node with its mark, or why the book refuses it. Separate from `offered_entry` because the tests differ.
pub(crate) fn offered_node<B: MarkedBook>(book: &B, raw: RawNode) -> Result<MarkedNode, NodeFault>
    ensures offered { NodeOffered (B.ReadableBook.meaning book.now) raw result }
    ensures exact { IsOk result ↔ NodeFits (B.ReadableBook.meaning book.now) raw }
{
    let plain_operands = plain_operands(book, raw.a, raw.b);
    let node = judge_node_offer(book.node_count(), plain_operands, raw)?;
    let plain = plain_node(node, plain_operands);
    Ok(MarkedNode { node, plain })
}

// The offered entry, or why the book refuses it.
pub(crate) fn offered_entry<B: MarkedBook>(book: &B, raw: RawEntry) -> Result<Entry, EnterFault>
    ensures offered { EntryOffered (B.ReadableBook.meaning book.now) raw result }
    ensures exact { IsOk result ↔ EntryFits (B.ReadableBook.meaning book.now) raw }
{
    judge_entry_offer(
        book.entry_count(),
        book.node_count(),
        typical_at(book, raw.a),
        plain_operands(book, raw.a, raw.b),
        raw,
    )
}

// Whether entry i can be struck, or why not.
pub(crate) fn may_strike<B: ReadableBook>(book: &B, i: u16) -> Result<(), StrikeFault>
    ensures { MayStrike (B.meaning book.now) i result }
{
    if i >= book.entry_count() {
        return Err(StrikeFault::NeverEntered(i));
    }
    if !book.entry_at(i).live {
        return Err(StrikeFault::Struck(i));
    }
    Ok(())
}
