// The most steps, labels and pending splits, and one more.
use crate::refuted::{Room, add_step, book_of, judged};
use judge::faults::RefuteFault::{AfterClosing, AtStep, BadLength, NotClosed};
use judge::step_fault::StepFault::Full;
use logic::records::{RawEntry, RawNode};
use std::test::Fail;

// Nodes: top, bottom, some role 0 top.
const NODES: [RawNode; 3] = [
    RawNode {
        kind: 0,
        a: 0,
        b: 0,
    },
    RawNode {
        kind: 1,
        a: 0,
        b: 0,
    },
    RawNode {
        kind: 7,
        a: 0,
        b: 0,
    },
];

// Entries: top is in bottom; individual 0 is in bottom; individual 0 is in some role 0 top.
const ENTRIES: [RawEntry; 3] = [
    RawEntry {
        kind: 1,
        a: 0,
        b: 1,
        c: 0,
    },
    RawEntry {
        kind: 2,
        a: 0,
        b: 1,
        c: 0,
    },
    RawEntry {
        kind: 2,
        a: 0,
        b: 2,
        c: 0,
    },
];

// Every step but the last adds the fact bottom.
#[test]
fn step_8192_is_taken_and_8193_are_too_many(rt: HostRuntime) -> Result<(), Fail> {
    let heap = rt.alloc();
    let book = book_of(&rt, heap, &NODES, &ENTRIES)?;
    let room = Room {
        constraints: 8191,
        edges: 0,
        splits: 0,
    };
    let mut bytes = Vec::new(heap);
    assert_eq!(rt; judged(heap, &book, &bytes, room)?, Err(NotClosed(0)));
    for _ in 0..8191 {
        add_step(&mut bytes, 1, 1, 0)?;
    }
    assert_eq!(rt; judged(heap, &book, &bytes, room)?, Err(NotClosed(8191)));
    add_step(&mut bytes, 13, 8190, 0)?;
    assert_eq!(rt; judged(heap, &book, &bytes, room)?, Ok(1));
    add_step(&mut bytes, 13, 8190, 0)?;
    assert_eq!(rt; judged(heap, &book, &bytes, room)?, Err(BadLength(40965)));
    assert_eq!(rt; judged(heap, &book, b"1234", room)?, Err(BadLength(4)));
    Ok(())
}

// Each step of op 6 makes a new label, from 32 on.
#[test]
fn label_255_is_granted_and_no_more(rt: HostRuntime) -> Result<(), Fail> {
    let heap = rt.alloc();
    let book = book_of(&rt, heap, &NODES, &ENTRIES)?;
    let room = Room {
        constraints: 300,
        edges: 300,
        splits: 0,
    };
    let mut bytes = Vec::new(heap);
    add_step(&mut bytes, 1, 2, 0)?;
    for _ in 32..256 {
        add_step(&mut bytes, 6, 0, 0)?;
    }
    assert_eq!(rt; judged(heap, &book, &bytes, room)?, Err(NotClosed(225)));
    add_step(&mut bytes, 6, 0, 0)?;
    assert_eq!(rt; judged(heap, &book, &bytes, room)?, Err(AtStep(225, Full)));
    Ok(())
}

// Nested splits; then every branch closes at its first constraint.
#[test]
fn splits_as_deep_as_their_list(rt: HostRuntime) -> Result<(), Fail> {
    let heap = rt.alloc();
    let book = book_of(&rt, heap, &NODES, &ENTRIES)?;
    for depth in 1..20usize {
        let mut bytes = Vec::new(heap);
        for _ in 0..depth {
            add_step(&mut bytes, 2, 0, 31)?;
        }
        for _ in 0..=depth {
            add_step(&mut bytes, 13, 0, 0)?;
        }
        let deep = Room {
            constraints: depth,
            edges: 0,
            splits: depth,
        };
        let shallow = Room {
            splits: depth - 1,
            ..deep
        };
        assert_eq!(rt; judged(heap, &book, &bytes, deep)?, Ok(1));
        assert_eq!(rt;
            judged(heap, &book, &bytes, shallow)?,
            Err(AtStep(depth - 1, Full))
        );
        add_step(&mut bytes, 13, 0, 0)?;
        assert_eq!(rt;
            judged(heap, &book, &bytes, deep)?,
            Err(AfterClosing(2 * depth + 1))
        );
    }
    Ok(())
}
