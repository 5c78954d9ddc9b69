// Concept nodes and entries of a rule book, as values and as they are written.

// A concept node. A concept name or a role is a number; a node operand is the number of an earlier
// node. In `All` and `Exists` the role comes first.
#[derive(Clone, Copy)]
pub enum Node {
    Top,
    Bottom,
    Name(u16),
    Not(u16),
    And(u16, u16),
    Or(u16, u16),
    All(u16, u16),
    Exists(u16, u16),
    Typical(u16),
    // the answer past the end of a book; its kind is 255
    Absent,
}

// An entry: every element of one node is in another (a concept inclusion), an individual is in a node (a concept
// assertion), or a role leads from one individual to another (a role assertion).
#[derive(Clone, Copy)]
pub enum Entry {
    Inclusion(u16, u16),
    Fact(u16, u16),
    RoleFact(u16, u16, u16),
    // the answer past the end of a book; its kind is 255
    Absent,
}

// An entry as a book stores it, live until it is struck. A flag, because live and struck entries hold the same fields.
#[derive(Clone, Copy)]
pub struct StoredEntry {
    pub entry: Entry,
    pub live: bool,
}

// The answer past the last entry of a book.
pub const NO_STORED_ENTRY: StoredEntry = StoredEntry {
    entry: Entry::Absent,
    live: false,
};

// A node as it is written and offered, with any numbers. The kind is a number, since an unknown kind can be
// offered too, and is then refused.
#[derive(Clone, Copy, Debug, PartialEq, Eq)]
pub struct RawNode {
    pub kind: u8,
    pub a: u16,
    pub b: u16,
}

// An entry as it is written and offered, with its kind as a number too.
#[derive(Clone, Copy, Debug, PartialEq, Eq)]
pub struct RawEntry {
    pub kind: u8,
    pub a: u16,
    pub b: u16,
    pub c: u16,
}
