// Damaged bytes: one field at a time.
use crate::filled::sample_table;
use books::book::ReadableBook;
use books::faults::Unfit::{NoSuchNode, OutOfRange, TypicalMisplaced, UnknownKind};
use sealed::check::check as check_bytes;
use sealed::faults::CheckFault::{self, BadFrame, BadRecord};
use sealed::seal::seal;
use sealed::sealed_book::SealedBook;
use std::process::Abort;
use std::test::Fail;

// The sample book after a note of two bytes: nodes from byte 2, entries from 37, the trailer from 58.
fn sample_bytes(rt: &(impl Abort + AllocGlobal)) -> Result<[u8; 66], Fail> {
    let book = sample_table(rt)?;
    let mut out = [0; 66];
    assert!(rt; seal(&book, &mut out[2..]).is_ok());
    Ok(out)
}

// A byte to damage, what is written there, and what check answers then.
const DAMAGE: [(usize, u8, Result<(), CheckFault>); 24] = [
    // the note is free
    (0, 255, Ok(())),
    // kinds of nodes
    (2, 9, Err(BadRecord(UnknownKind, 2))),
    (17, 255, Err(BadRecord(UnknownKind, 17))),
    // a name over 63, an unused operand
    (3, 64, Err(BadRecord(OutOfRange, 2))),
    (4, 1, Err(BadRecord(OutOfRange, 2))),
    (5, 1, Err(BadRecord(OutOfRange, 2))),
    (21, 1, Err(BadRecord(OutOfRange, 17))),
    // an operand that is not there
    (23, 4, Err(BadRecord(NoSuchNode, 22))),
    (26, 2, Err(BadRecord(NoSuchNode, 22))),
    (18, 3, Err(BadRecord(NoSuchNode, 17))),
    // T below T
    (28, 3, Err(BadRecord(TypicalMisplaced, 27))),
    // kinds of entries, live and struck
    (37, 0, Err(BadRecord(UnknownKind, 37))),
    (37, 4, Err(BadRecord(UnknownKind, 37))),
    (37, 16, Err(BadRecord(UnknownKind, 37))),
    (37, 33, Err(BadRecord(UnknownKind, 37))),
    (37, 17, Ok(())),
    // an unused operand, an individual over 31
    (42, 1, Err(BadRecord(OutOfRange, 37))),
    (52, 32, Err(BadRecord(OutOfRange, 51))),
    // a node that is not there
    (38, 7, Err(BadRecord(NoSuchNode, 37))),
    // T on the right
    (40, 3, Err(BadRecord(TypicalMisplaced, 37))),
    // counts and distance
    (58, 6, Err(BadFrame(66))),
    (59, 3, Err(BadFrame(66))),
    (60, 4, Err(BadFrame(66))),
    (62, 55, Err(BadFrame(66))),
];

#[test]
fn every_field_damaged_in_turn(rt: HostRuntime) -> Result<(), Fail> {
    let bytes = sample_bytes(&rt)?;
    assert_eq!(rt; check_bytes(&bytes), Ok(()));
    for (at, value, answer) in &DAMAGE {
        let mut damaged = bytes;
        assert!(rt; *at < 66);
        damaged[*at] = *value;
        assert_eq!(rt; check_bytes(&damaged), *answer, "damaged");
        let book = SealedBook::open(&damaged);
        let nodes = if answer.is_ok() { 7 } else { 0 };
        assert_eq!(rt; book.node_count(), nodes);
    }
    Ok(())
}

#[test]
fn short_bytes_are_refused(rt: HostRuntime) {
    assert_eq!(rt; check_bytes(&[]), Err(BadFrame(0)));
    assert_eq!(rt; check_bytes(&[0; 7]), Err(BadFrame(7)));
    assert_eq!(rt; check_bytes(&[0; 8]), Ok(()));
    assert_eq!(rt; check_bytes(&[1, 0, 0, 0, 5, 0, 0, 0]), Err(BadFrame(8)));
    assert_eq!(rt; check_bytes(&[0, 0, 0, 0, 0, 0, 1, 0]), Err(BadFrame(8)));
    assert_eq!(rt; check_bytes(&[0, 1, 0, 0, 0, 0, 0, 0, 0]), Err(BadFrame(9)));
}

#[test]
fn counts_over_the_limits_are_refused(rt: HostRuntime) {
    let mut nodes = [0; 2573];
    nodes[2565] = 1;
    nodes[2566] = 2;
    nodes[2569] = 5;
    nodes[2570] = 10;
    assert_eq!(rt; check_bytes(&nodes), Err(BadFrame(2573)));
    let mut entries = [0; 1807];
    entries[1801] = 1;
    entries[1802] = 1;
    entries[1803] = 7;
    entries[1804] = 7;
    assert_eq!(rt; check_bytes(&entries), Err(BadFrame(1807)));
}
