// The tests of a node or an entry that is offered to a book, by what is known of its operands. A clause named
// `flags` fixes the answer for any flags. One that begins with a book or a list of concepts says what the answer
// means where the flags are true of that book; it quantifies over all books, since the function is given none.
ghost use Rattle.std.specs.Prelude.{◌≡◌, List, length};
ghost use Rattle.logic.specs.Written.{node_of, node_a, node_b, entry_of, entry_a, entry_b};
ghost use Rattle.logic.specs.Concepts.{Concept, concepts, of, read, plain, is_typical};
ghost use Rattle.logic.specs.Books.{Book, concept};
ghost use Rattle.logic.specs.Lawful.{node_within_limits, node_operands_below, node_typicality_allowed, entry_within_limits, entry_operands_below, entry_typicality_allowed};
ghost use Rattle.logic.specs.Bounds.{node_limit, entry_limit};
ghost use Rattle.logic.specs.Refusals.{node_unfit, node_unused_zero, node_refusal, entry_unfit, entry_unused_zero, entry_refusal, unless_full};
ghost use Rattle.books.specs.Answers.{Judged, OfferJudged, IsPlainnessOf, FirstUnfit, HasRoom};
ghost use Rattle.books.specs.Offers.{plain_by, node_typicality_allowed_by, entry_typicality_allowed_by, node_unfit_by, entry_unfit_by};

use crate::faults::{EnterFault, NodeFault, OfferFault, Reason, Unfit};
use logic::limits::{ENTRIES, INDIVIDUALS, NAMES, NODES, ROLES};
use logic::records::{Entry, Node, RawEntry, RawNode};

// Whether the operands a and b of an offered record are plain nodes.
#[derive(Clone, Copy)]
pub struct PlainOperands {
    pub plain_a: bool,
    pub plain_b: bool,
}

// Whether there is room for one more record.
fn room<R>(count: u16, limit: u16) -> Result<(), OfferFault<R>>
    ensures { HasRoom count limit result }
{
    if count >= limit {
        return Err(OfferFault::new(Reason::Full, count));
    }
    Ok(())
}

// The first of the four tests that fails, in the order of the refusals; for nodes and for entries.
fn first_unfit(known: bool, in_range: bool, there: bool, placed: bool) -> Result<(), Unfit>
    ensures { FirstUnfit known in_range there placed result }
{
    if !known {
        return Err(Unfit::UnknownKind);
    }
    if !in_range {
        return Err(Unfit::OutOfRange);
    }
    if !there {
        return Err(Unfit::NoSuchNode);
    }
    if !placed {
        return Err(Unfit::TypicalMisplaced);
    }
    Ok(())
}

fn node_within_limits(node: Node) -> bool
    ensures { result ≡ node_within_limits node }
{
    match node {
        Node::Name(name) => name < NAMES,
        Node::All(role, _) | Node::Exists(role, _) => role < ROLES,
        _ => true,
    }
}

// Operand by operand: `==` would compare the kinds too.
fn node_unused_zero(raw: RawNode) -> bool
    ensures { result ≡ node_unused_zero raw }
{
    let own = RawNode::from(Node::from(raw));
    raw.a == own.a && raw.b == own.b
}

fn node_operands_below(count: u16, node: Node) -> bool
    ensures { result ≡ node_operands_below count node }
{
    match node {
        Node::Not(c) | Node::All(_, c) | Node::Exists(_, c) | Node::Typical(c) => c < count,
        Node::And(c, d) | Node::Or(c, d) => c < count && d < count,
        _ => true,
    }
}

// Whether typicality is in place in a node.
fn node_typicality_allowed(node: Node, plain_operands: PlainOperands) -> bool
    ensures { result ≡ node_typicality_allowed_by plain_operands node }
{
    let PlainOperands { plain_a, plain_b } = plain_operands;
    match node {
        Node::All(_, _) | Node::Exists(_, _) => plain_b,
        Node::Typical(_) => plain_a,
        _ => true,
    }
}

// Whether a node is plain: no typicality occurs in its concept.
pub fn plain_node(node: Node, plain_operands: PlainOperands) -> bool
    ensures flags { result ≡ plain_by plain_operands node }
    ensures concept { (cs : List Concept) → IsPlainnessOf cs (node_a node) (node_b node) plain_operands
        → result ≡ plain (read cs node) }
{
    match node {
        Node::Not(_) => plain_operands.plain_a,
        Node::And(_, _) | Node::Or(_, _) => plain_operands.plain_a && plain_operands.plain_b,
        Node::All(_, _) | Node::Exists(_, _) => plain_operands.plain_b,
        Node::Typical(_) => false,
        Node::Top | Node::Bottom | Node::Name(_) | Node::Absent => true,
    }
}

// Whether a node is T(c) for some c.
pub fn typical_node(node: Node) -> bool
    ensures { (cs : List Concept) → result ≡ is_typical (read cs node) }
{
    matches!(node, Node::Typical(_))
}

// The node that is offered, or why it does not fit a book of `count` nodes that is not full.
pub fn fitting_node(count: u16, plain_operands: PlainOperands, raw: RawNode) -> Result<Node, Unfit>
    ensures flags { Judged (node_unfit_by count plain_operands raw) (node_of raw) result }
    ensures books { (bk : Book) → length bk.nodes ≡ count
        → IsPlainnessOf (concepts bk.nodes) raw.a raw.b plain_operands
        → Judged (node_unfit bk raw) (node_of raw) result }
{
    let node = Node::from(raw);
    first_unfit(
        !matches!(node, Node::Absent),
        node_within_limits(node) && node_unused_zero(raw),
        node_operands_below(count, node),
        node_typicality_allowed(node, plain_operands),
    )?;
    Ok(node)
}

// The same as `fitting_node`: the node that is offered, or why it does not fit a book of `count` nodes that is not full.
pub fn judge_node(count: u16, plain_operands: PlainOperands, raw: RawNode) -> Result<Node, Unfit>
    ensures flags { Judged (node_unfit_by count plain_operands raw) (node_of raw) result }
    ensures books { (bk : Book) → length bk.nodes ≡ count
        → IsPlainnessOf (concepts bk.nodes) raw.a raw.b plain_operands
        → Judged (node_unfit bk raw) (node_of raw) result }
{
    fitting_node(count, plain_operands, raw)
}

// The node that is offered, or why a book of `count` nodes refuses it: the book is full, or the node does not fit.
pub fn judge_node_offer(
    count: u16,
    plain_operands: PlainOperands,
    raw: RawNode,
) -> Result<Node, NodeFault>
    ensures flags { OfferJudged
        (unless_full node_limit count (node_unfit_by count plain_operands raw)) count
        (node_of raw) result }
    ensures books { (bk : Book) → length bk.nodes ≡ count
        → IsPlainnessOf (concepts bk.nodes) raw.a raw.b plain_operands
        → OfferJudged (node_refusal bk raw) (length bk.nodes) (node_of raw) result }
{
    room(count, NODES)?;
    fitting_node(count, plain_operands, raw).map_err(|unfit| OfferFault::new(
        Reason::Unfit(unfit),
        count,
    ))
}

fn entry_within_limits(entry: Entry) -> bool
    ensures { result ≡ entry_within_limits entry }
{
    match entry {
        Entry::Fact(individual, _) => individual < INDIVIDUALS,
        Entry::RoleFact(role, from, to) => role < ROLES && from < INDIVIDUALS && to < INDIVIDUALS,
        Entry::Inclusion(_, _) | Entry::Absent => true,
    }
}

// Operand by operand, as above.
fn entry_unused_zero(raw: RawEntry) -> bool
    ensures { result ≡ entry_unused_zero raw }
{
    let own = RawEntry::from(Entry::from(raw));
    raw.a == own.a && raw.b == own.b && raw.c == own.c
}

fn entry_operands_below(count: u16, entry: Entry) -> bool
    ensures { result ≡ entry_operands_below count entry }
{
    match entry {
        Entry::Inclusion(c, d) => c < count && d < count,
        Entry::Fact(_, c) => c < count,
        Entry::RoleFact(_, _, _) | Entry::Absent => true,
    }
}

// Whether typicality is in place in an entry; `typical_a`: its node a is T(c) for some c.
fn entry_typicality_allowed(entry: Entry, typical_a: bool, plain_operands: PlainOperands) -> bool
    ensures { result ≡ entry_typicality_allowed_by typical_a plain_operands entry }
{
    match entry {
        Entry::Inclusion(_, _) => (typical_a || plain_operands.plain_a) && plain_operands.plain_b,
        Entry::Fact(_, _) | Entry::RoleFact(_, _, _) | Entry::Absent => true,
    }
}

// The entry that is offered, or why it does not fit a book of `count` nodes that is not full; `typical_a`: node a is
// T(c) for some c.
pub fn fitting_entry(
    count: u16,
    typical_a: bool,
    plain_operands: PlainOperands,
    raw: RawEntry,
) -> Result<Entry, Unfit>
    ensures flags { Judged (entry_unfit_by count typical_a plain_operands raw)
        (entry_of raw) result }
    ensures books { (bk : Book) → length bk.nodes ≡ count
        → is_typical (concept bk raw.a) ≡ typical_a
        → IsPlainnessOf (concepts bk.nodes) raw.a raw.b plain_operands
        → Judged (entry_unfit bk raw) (entry_of raw) result }
{
    let entry = Entry::from(raw);
    first_unfit(
        !matches!(entry, Entry::Absent),
        entry_within_limits(entry) && entry_unused_zero(raw),
        entry_operands_below(count, entry),
        entry_typicality_allowed(entry, typical_a, plain_operands),
    )?;
    Ok(entry)
}

// The same as `fitting_entry`: the entry that is offered, or why it does not fit a book of `count` nodes that is not
// full; `typical_a`: node a is T(c) for some c.
pub fn judge_entry(
    count: u16,
    typical_a: bool,
    plain_operands: PlainOperands,
    raw: RawEntry,
) -> Result<Entry, Unfit>
    ensures flags { Judged (entry_unfit_by count typical_a plain_operands raw)
        (entry_of raw) result }
    ensures books { (bk : Book) → length bk.nodes ≡ count
        → is_typical (concept bk raw.a) ≡ typical_a
        → IsPlainnessOf (concepts bk.nodes) raw.a raw.b plain_operands
        → Judged (entry_unfit bk raw) (entry_of raw) result }
{
    fitting_entry(count, typical_a, plain_operands, raw)
}

// The entry that is offered, or why a book of `count` entries and `nodes` nodes refuses it: the book is full, or the
// entry does not fit.
pub fn judge_entry_offer(
    count: u16,
    nodes: u16,
    typical_a: bool,
    plain_operands: PlainOperands,
    raw: RawEntry,
) -> Result<Entry, EnterFault>
    ensures flags { OfferJudged
        (unless_full entry_limit count (entry_unfit_by nodes typical_a plain_operands raw)) count
        (entry_of raw) result }
    ensures books { (bk : Book) → length bk.entries ≡ count → length bk.nodes ≡ nodes
        → is_typical (concept bk raw.a) ≡ typical_a
        → IsPlainnessOf (concepts bk.nodes) raw.a raw.b plain_operands
        → OfferJudged (entry_refusal bk raw) (length bk.entries) (entry_of raw) result }
{
    room(count, ENTRIES)?;
    fitting_entry(nodes, typical_a, plain_operands, raw).map_err(|unfit| OfferFault::new(
        Reason::Unfit(unfit),
        count,
    ))
}
