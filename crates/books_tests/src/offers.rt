// Tests of the functions that judge an offered record. They get no book: the caller says what is known of the operands,
// and may say what is true of no book.
use books::faults::Unfit::{self, NoSuchNode, OutOfRange, TypicalMisplaced, UnknownKind};
use books::faults::{OfferFault, Reason};
use books::offers::{
    PlainOperands, fitting_entry, fitting_node, judge_entry, judge_entry_offer, judge_node,
    judge_node_offer,
};
use logic::records::{RawEntry, RawNode};
use std::process::Abort;

// What is known of the operands a and b.
const BOTH_PLAIN: PlainOperands = PlainOperands {
    plain_a: true,
    plain_b: true,
};

const PLAIN_A: PlainOperands = PlainOperands {
    plain_a: true,
    plain_b: false,
};

const PLAIN_B: PlainOperands = PlainOperands {
    plain_a: false,
    plain_b: true,
};

// Nodes that do not fit a book of two nodes, and why.
const UNFIT_NODES: [(PlainOperands, u8, u16, u16, Unfit); 10] = [
    (BOTH_PLAIN, 9, 0, 0, UnknownKind),
    (BOTH_PLAIN, 9, 9, 0, UnknownKind),
    (PLAIN_B, 99, 0, 0, UnknownKind),
    (BOTH_PLAIN, 2, 64, 0, OutOfRange),
    (BOTH_PLAIN, 3, 0, 1, OutOfRange),
    (PLAIN_A, 6, 16, 2, OutOfRange),
    (BOTH_PLAIN, 4, 0, 2, NoSuchNode),
    (PLAIN_A, 7, 0, 2, NoSuchNode),
    (PLAIN_A, 7, 0, 1, TypicalMisplaced),
    (PLAIN_B, 8, 1, 0, TypicalMisplaced),
];

// Nodes that fit it.
const FITTING_NODES: [(PlainOperands, u8, u16, u16); 4] = [
    (PLAIN_B, 3, 1, 0),
    (PLAIN_A, 5, 0, 1),
    (PLAIN_B, 6, 15, 1),
    (BOTH_PLAIN, 8, 1, 0),
];

// `judge_node` and `fitting_node` give this answer. `judge_node_offer` gives it with the count, as the book is not full.
fn node_answer(
    rt: &impl Abort,
    plain_operands: PlainOperands,
    raw: RawNode,
    answer: Result<RawNode, Unfit>,
) {
    assert_eq!(rt;
        judge_node(2, plain_operands, raw).map(RawNode::from),
        answer
    );
    assert_eq!(rt;
        fitting_node(2, plain_operands, raw).map(RawNode::from),
        answer
    );
    assert_eq!(rt;
        judge_node_offer(2, plain_operands, raw).map(RawNode::from),
        answer.map_err(|unfit| OfferFault::new(Reason::Unfit(unfit), 2))
    );
}

#[test]
fn nodes_that_fit_and_others(rt: HostRuntime) {
    for (plain_operands, kind, a, b, why) in UNFIT_NODES {
        node_answer(&rt, plain_operands, RawNode { kind, a, b }, Err(why));
    }
    for (plain_operands, kind, a, b) in FITTING_NODES {
        let raw = RawNode { kind, a, b };
        node_answer(&rt, plain_operands, raw, Ok(raw));
    }
}

// Entries that do not fit a book of two nodes, and why. The first field: whether node a is T(c) for some c.
const UNFIT_ENTRIES: [(bool, PlainOperands, u8, u16, u16, u16, Unfit); 6] = [
    (false, BOTH_PLAIN, 0, 0, 0, 0, UnknownKind),
    (true, BOTH_PLAIN, 1, 0, 1, 1, OutOfRange),
    (false, BOTH_PLAIN, 2, 32, 0, 0, OutOfRange),
    (false, BOTH_PLAIN, 1, 2, 0, 0, NoSuchNode),
    (false, PLAIN_B, 1, 0, 1, 0, TypicalMisplaced),
    (true, PLAIN_A, 1, 0, 1, 0, TypicalMisplaced),
];

// Entries that fit it.
const FITTING_ENTRIES: [(bool, PlainOperands, u8, u16, u16, u16); 4] = [
    (true, PLAIN_B, 1, 0, 1, 0),
    (false, BOTH_PLAIN, 1, 1, 0, 0),
    (false, PLAIN_A, 2, 31, 1, 0),
    (false, BOTH_PLAIN, 3, 15, 31, 0),
];

// As for nodes; the book has five entries.
fn entry_answer(
    rt: &impl Abort,
    typical_a: bool,
    plain_operands: PlainOperands,
    raw: RawEntry,
    answer: Result<RawEntry, Unfit>,
) {
    assert_eq!(rt;
        judge_entry(2, typical_a, plain_operands, raw).map(RawEntry::from),
        answer
    );
    assert_eq!(rt;
        fitting_entry(2, typical_a, plain_operands, raw).map(RawEntry::from),
        answer
    );
    assert_eq!(rt;
        judge_entry_offer(5, 2, typical_a, plain_operands, raw).map(RawEntry::from),
        answer.map_err(|unfit| OfferFault::new(Reason::Unfit(unfit), 5))
    );
}

#[test]
fn entries_that_fit_and_others(rt: HostRuntime) {
    for (typical_a, plain_operands, kind, a, b, c, why) in UNFIT_ENTRIES {
        entry_answer(
            &rt,
            typical_a,
            plain_operands,
            RawEntry { kind, a, b, c },
            Err(why),
        );
    }
    for (typical_a, plain_operands, kind, a, b, c) in FITTING_ENTRIES {
        let raw = RawEntry { kind, a, b, c };
        entry_answer(&rt, typical_a, plain_operands, raw, Ok(raw));
    }
}

// Of these functions only `judge_node_offer` and `judge_entry_offer` test the limit, and they test it first.
#[test]
fn a_full_book(rt: HostRuntime) {
    let top = RawNode {
        kind: 0,
        a: 0,
        b: 0,
    };
    assert_eq!(rt;
        judge_node(512, BOTH_PLAIN, top).map(RawNode::from),
        Ok(top)
    );
    assert_eq!(rt;
        judge_node_offer(511, BOTH_PLAIN, top).map(RawNode::from),
        Ok(top)
    );
    let unknown = RawNode {
        kind: 9,
        a: 0,
        b: 0,
    };
    for raw in [top, unknown] {
        assert_eq!(rt;
            judge_node_offer(512, BOTH_PLAIN, raw).map(RawNode::from),
            Err(OfferFault::new(Reason::Full, 512))
        );
    }
    let role_fact = RawEntry {
        kind: 3,
        a: 0,
        b: 0,
        c: 0,
    };
    assert_eq!(rt;
        judge_entry_offer(255, 512, false, BOTH_PLAIN, role_fact).map(RawEntry::from),
        Ok(role_fact)
    );
    let unknown = RawEntry {
        kind: 4,
        a: 0,
        b: 0,
        c: 0,
    };
    for raw in [role_fact, unknown] {
        assert_eq!(rt;
            judge_entry_offer(256, 512, false, BOTH_PLAIN, raw).map(RawEntry::from),
            Err(OfferFault::new(Reason::Full, 256))
        );
    }
}
