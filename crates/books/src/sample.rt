// The sample book, with its records as they are offered: typically a release is paired, typically a yanked release is
// not, and individual 0 is a typical yanked release. Names 0, 1 and 2 are release, yanked and paired. Besides, a
// question and two tableaux, with five bytes for each step.
use logic::records::{RawEntry, RawNode};

// release, yanked, paired, T(release), release and yanked, T(release and yanked), not paired
pub const NODES: [RawNode; 7] = [
    RawNode {
        kind: 2,
        a: 0,
        b: 0,
    },
    RawNode {
        kind: 2,
        a: 1,
        b: 0,
    },
    RawNode {
        kind: 2,
        a: 2,
        b: 0,
    },
    RawNode {
        kind: 8,
        a: 0,
        b: 0,
    },
    RawNode {
        kind: 4,
        a: 0,
        b: 1,
    },
    RawNode {
        kind: 8,
        a: 4,
        b: 0,
    },
    RawNode {
        kind: 3,
        a: 2,
        b: 0,
    },
];

// every element of node 3 is in node 2, every element of node 5 is in node 6, individual 0 is in node 5
pub const ENTRIES: [RawEntry; 3] = [
    RawEntry {
        kind: 1,
        a: 3,
        b: 2,
        c: 0,
    },
    RawEntry {
        kind: 1,
        a: 5,
        b: 6,
        c: 0,
    },
    RawEntry {
        kind: 2,
        a: 0,
        b: 5,
        c: 0,
    },
];

// The question: individual 0 is a typical release too. With it, as entry 3, the book has no model.
pub const QUESTION: RawEntry = RawEntry {
    kind: 2,
    a: 0,
    b: 3,
    c: 0,
};

// The steps that refute the book with the question: 1 2 0, 1 3 0, 2 0 0, 12 1 2, 2 1 0, 12 0 3, 3 3 0,
// 12 2 4. They name entries 0 to 3.
pub const REFUTATION: [u8; 40] = [
    1, 2, 0, 0, 0, 1, 3, 0, 0, 0, 2, 0, 0, 0, 0, 12, 1, 0, 2, 0, 2, 1, 0, 0, 0, 12, 0, 0, 3, 0, 3,
    3, 0, 0, 0, 12, 2, 0, 4, 0,
];

// A wrong hand-in over the book: 1 2 0, 8 0 0, 4 1 0, 2 0 0, 9 5 0, 12 3 6, 12 2 6. The last step would close the
// branch with two different nodes, one barred and one admitted.
pub const WRONG_STEPS: [u8; 35] = [
    1, 2, 0, 0, 0, 8, 0, 0, 0, 0, 4, 1, 0, 0, 0, 2, 0, 0, 0, 0, 9, 5, 0, 0, 0, 12, 3, 0, 6, 0, 12,
    2, 0, 6, 0,
];
