// Prints calls of a book or of a docket, with their arguments and answers.
use logic::records::{RawEntry, RawNode};
use logic::refusal::{Refusal, Report};
use std::io;

pub(crate) fn print_refusal<F: Refusal>(rt: &impl Print, fault: &F) -> io::Result<()> {
    let Report { number, place } = fault.report();
    println!(rt; "refused {number} at {place}")
}

// One function for each call, since each prints its answer in its own words.
pub(crate) fn node<F: Refusal + Drop>(
    rt: &impl Print,
    raw: RawNode,
    answer: Result<u16, F>,
) -> io::Result<()> {
    print!(rt; "  node, kind {} a {} b {}: ", raw.kind, raw.a, raw.b)?;
    match answer {
        Ok(i) => println!(rt; "granted, node {i}"),
        Err(fault) => print_refusal(rt, &fault),
    }
}

pub(crate) fn enter<F: Refusal + Drop>(
    rt: &impl Print,
    raw: RawEntry,
    answer: Result<u16, F>,
) -> io::Result<()> {
    print!(rt;
        "  enter, kind {} a {} b {} c {}: ",
        raw.kind, raw.a, raw.b, raw.c
    )?;
    match answer {
        Ok(i) => println!(rt; "granted, entry {i}"),
        Err(fault) => print_refusal(rt, &fault),
    }
}

pub(crate) fn strike<F: Refusal + Drop>(
    rt: &impl Print,
    i: u16,
    answer: Result<(), F>,
) -> io::Result<()> {
    print!(rt; "  strike {i}: ")?;
    match answer {
        Ok(()) => println!(rt; "granted"),
        Err(fault) => print_refusal(rt, &fault),
    }
}
