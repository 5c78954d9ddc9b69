// Every op on every form and kind of node, and each wrong operand.
use crate::refuted::{Room, add_step, judged};
use books::book::EditableBook;
use books::slot_table::SlotTable;
use judge::faults::RefuteFault::AtStep;
use judge::step_fault::StepFault::{self, Malformed, Misfit, NeverEntered, NotThere};
use logic::records::{RawEntry, RawNode};
use std::alloc::{AllocError, Global};
use std::process::Abort;
use std::test::Fail;

// The tables use plain numbers, not the crate's own types.
// The kinds of nodes 0 to 7: a name, top, bottom; not, and, or, all and some of this name.
const KINDS: [u8; 8] = [2, 0, 1, 3, 4, 5, 6, 7];

// Nodes 0 to 7 have these kinds, 8 to 15 are T of each, 16 to 31 are the negations of 0 to 15. Entries 0 to 31 are
// facts: individual 0 is in each node. Entry 32: role 0 leads from individual 0 to 1. Entry 33: the name is in top.
fn book_of_all_kinds(rt: &impl Abort, heap: Global) -> Result<SlotTable, Fail> {
    let mut book: SlotTable = EditableBook::new(heap)?;
    for kind in KINDS {
        assert!(rt; book.node(RawNode { kind, a: 0, b: 0 }).is_ok());
    }
    for a in 0..8 {
        assert!(rt; book.node(RawNode { kind: 8, a, b: 0 }).is_ok());
    }
    for a in 0..16 {
        assert!(rt; book.node(RawNode { kind: 3, a, b: 0 }).is_ok());
    }
    for b in 0..32 {
        let fact = RawEntry {
            kind: 2,
            a: 0,
            b,
            c: 0,
        };
        assert!(rt; book.enter(fact).is_ok());
    }
    let leads = RawEntry {
        kind: 3,
        a: 0,
        b: 0,
        c: 1,
    };
    assert!(rt; book.enter(leads).is_ok());
    let inclusion = RawEntry {
        kind: 1,
        a: 0,
        b: 1,
        c: 0,
    };
    assert!(rt; book.enter(inclusion).is_ok());
    Ok(book)
}

// The steps of a branch with all four forms on each node without T, and with holds and fails on the others.
fn branch_of_all_forms(heap: Global) -> Result<Vec<u8>, AllocError> {
    let mut bytes = Vec::new(heap);
    for entry in 0..33 {
        add_step(&mut bytes, 1, entry, 0)?;
    }
    for negation in 16..32 {
        add_step(&mut bytes, 3, negation, 0)?;
    }
    for typical in 8..16 {
        add_step(&mut bytes, 8, typical, 0)?;
    }
    // the first branch of each split closes at once
    for k in 0..8u16 {
        add_step(&mut bytes, 9, 40 + k, 0)?;
        add_step(&mut bytes, 12, k, 64 + k)?;
    }
    add_step(&mut bytes, 10, 64, 0)?;
    Ok(bytes)
}

// The number of these steps, and of the constraints at individual 0. Two more are at label 32.
const STEPS: usize = 74;

const CONSTRAINTS: u16 = 72;

const HOLDS: u8 = 0;

const FAILS: u8 = 1;

const BARS: u8 = 2;

const ADMITS: u8 = 3;

// The form and the node of constraint a.
fn constraint(a: u16) -> (u8, u16) {
    match a {
        0..=31 => (HOLDS, a),
        32..=47 => (FAILS, a - 32),
        48..=63 if a % 2 == 0 => (HOLDS, (a - 48) / 2),
        48..=63 => (BARS, (a - 48) / 2),
        _ => (ADMITS, a.saturating_sub(64)),
    }
}

fn kind(node: u16) -> u8 {
    match node {
        8..=15 => 8,
        16..=31 => 3,
        _ => KINDS.get(node as usize).copied().unwrap_or(255),
    }
}

// Whether a rule permits the op on constraint a with edge or constraint b. Edge 0 has role 0, edge 1 leads to a better
// element.
fn fits(op: u8, a: u16, b: u16) -> bool {
    let (form, node) = constraint(a);
    match (op, form, kind(node)) {
        (3, HOLDS | FAILS, 3) => true,
        (4, HOLDS, 4) | (4, FAILS, 5) => true,
        (5, HOLDS, 5) | (5, FAILS, 4) => true,
        (6, HOLDS, 7) | (6, FAILS, 6) => true,
        (7, HOLDS, 6) | (7, FAILS, 7) => b == 0,
        (8, HOLDS, 8) => true,
        (9, FAILS, 8) => true,
        (10, ADMITS, _) => true,
        (11, BARS, _) => b == 1,
        (12, HOLDS, _) => constraint(b) == (FAILS, node),
        (12, BARS, _) => constraint(b) == (ADMITS, node),
        (13, HOLDS, 1) | (13, FAILS, 0) => true,
        _ => false,
    }
}

// The number of operands b to try with the op.
fn operands(op: u8) -> u16 {
    match op {
        7 | 11 => 2,
        12 => CONSTRAINTS,
        _ => 1,
    }
}

const ROOM: Room = Room {
    constraints: 76,
    edges: 3,
    splits: 1,
};

// Ops 3 to 13 on each constraint, with each edge or constraint that they can name.
#[test]
fn an_op_fits_its_row_alone(rt: HostRuntime) -> Result<(), Fail> {
    let heap = rt.alloc();
    let book = book_of_all_kinds(&rt, heap)?;
    let mut bytes = branch_of_all_forms(heap)?;
    for op in 3..14u8 {
        for a in 0..CONSTRAINTS {
            for b in 0..operands(op) {
                add_step(&mut bytes, op, a, b)?;
                let answer = judged(heap, &book, &bytes, ROOM)?;
                assert_eq!(rt; answer == Err(AtStep(STEPS, Misfit)), !fits(op, a, b));
                bytes.truncate(5 * STEPS);
            }
        }
    }
    Ok(())
}

// Wrong operands and malformed steps: ops 1 and 2 on each kind of entry, constraints and edges of two labels.
#[test]
fn wrong_operands(rt: HostRuntime) -> Result<(), Fail> {
    let heap = rt.alloc();
    let book = book_of_all_kinds(&rt, heap)?;
    let mut bytes = branch_of_all_forms(heap)?;
    let bad: [(u8, u16, u16, StepFault); 16] = [
        (0, 0, 0, Malformed),
        (14, 0, 0, Malformed),
        (1, 0, 1, Malformed),
        (13, 99, 1, Malformed),
        (1, 34, 0, NeverEntered),
        (2, 34, 0, NeverEntered),
        (1, 300, 0, NeverEntered),
        (2, 33, 33, NotThere),
        (3, 74, 0, NotThere),
        (7, 6, 2, NotThere),
        (12, 0, 74, NotThere),
        (1, 33, 0, Misfit),
        (2, 0, 0, Misfit),
        (2, 32, 0, Misfit),
        (11, 73, 1, Misfit),
        (12, 72, 32, Misfit),
    ];
    for (op, a, b, why) in bad {
        add_step(&mut bytes, op, a, b)?;
        let answer = judged(heap, &book, &bytes, ROOM)?;
        assert_eq!(rt; answer, Err(AtStep(STEPS, why)));
        bytes.truncate(5 * STEPS);
    }
    Ok(())
}
