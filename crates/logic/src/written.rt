// Conversion of the numbers of a record into its value, and back.
ghost use Rattle.std.specs.Prelude.{◌≡◌};
ghost use Rattle.logic.specs.Written.{node_of, entry_of, WritesNode, WritesEntry};

use crate::records::{Entry, Node, RawEntry, RawNode};

// The node of these numbers; unused operands are ignored. An unknown kind gives `Absent`, not an error: most callers
// read checked records.
impl From<RawNode> for Node {
    ghost from_gives = { λ raw n. n ≡ node_of raw };

    fn from(raw: RawNode) -> Node {
        match raw.kind {
            0 => Node::Top,
            1 => Node::Bottom,
            2 => Node::Name(raw.a),
            3 => Node::Not(raw.a),
            4 => Node::And(raw.a, raw.b),
            5 => Node::Or(raw.a, raw.b),
            6 => Node::All(raw.a, raw.b),
            7 => Node::Exists(raw.a, raw.b),
            8 => Node::Typical(raw.a),
            _ => Node::Absent,
        }
    }
}

// The numbers of a node, an unused operand being 0.
impl From<Node> for RawNode {
    ghost from_gives = { λ n raw. WritesNode raw n };

    fn from(node: Node) -> RawNode {
        let (kind, a, b) = match node {
            Node::Top => (0, 0, 0),
            Node::Bottom => (1, 0, 0),
            Node::Name(name) => (2, name, 0),
            Node::Not(c) => (3, c, 0),
            Node::And(c, d) => (4, c, d),
            Node::Or(c, d) => (5, c, d),
            Node::All(role, c) => (6, role, c),
            Node::Exists(role, c) => (7, role, c),
            Node::Typical(c) => (8, c, 0),
            Node::Absent => (255, 0, 0),
        };
        RawNode { kind, a, b }
    }
}

// The entry of these numbers; unused operands are ignored, and an unknown kind gives `Absent`.
impl From<RawEntry> for Entry {
    ghost from_gives = { λ raw e. e ≡ entry_of raw };

    fn from(raw: RawEntry) -> Entry {
        match raw.kind {
            1 => Entry::Inclusion(raw.a, raw.b),
            2 => Entry::Fact(raw.a, raw.b),
            3 => Entry::RoleFact(raw.a, raw.b, raw.c),
            _ => Entry::Absent,
        }
    }
}

// The numbers of an entry, an unused operand being 0.
impl From<Entry> for RawEntry {
    ghost from_gives = { λ e raw. WritesEntry raw e };

    fn from(entry: Entry) -> RawEntry {
        let (kind, a, b, c) = match entry {
            Entry::Inclusion(left, right) => (1, left, right, 0),
            Entry::Fact(individual, node) => (2, individual, node, 0),
            Entry::RoleFact(role, from, to) => (3, role, from, to),
            Entry::Absent => (255, 0, 0, 0),
        };
        RawEntry { kind, a, b, c }
    }
}
