// Judges a tableau: prints each step that is taken, and the verdict.
use crate::calls;
use crate::tracing::work;
use books::book::ReadableBook;
use judge::effect::Effect;
use judge::lists::Blank;
use judge::watch::TakenStep;
use judge::working::Split;
use logic::tableau::{Constraint, Edge, Form, Step};
use std::{fmt, io};

// The lengths of the three working lists.
#[derive(Clone, Copy)]
pub(crate) struct Room {
    pub(crate) constraints: usize,
    pub(crate) edges: usize,
    pub(crate) splits: usize,
}

// A part of a tableau, to be printed in words.
#[derive(Clone, Copy)]
struct Words<T>(T);

impl fmt::Display for Words<Form> {
    fn fmt<W: fmt::Write>(&self, f: &mut fmt::Formatter<W>) -> fmt::Result {
        match self.0 {
            Form::Holds => write!(f, "holds"),
            Form::Fails => write!(f, "fails"),
            Form::Bars => write!(f, "bars"),
            Form::Admits => write!(f, "admits"),
        }
    }
}

impl fmt::Display for Words<Constraint> {
    fn fmt<W: fmt::Write>(&self, f: &mut fmt::Formatter<W>) -> fmt::Result {
        let Constraint { label, form, node } = self.0;
        write!(f, "{label} {} node {node}", Words(form))
    }
}

impl fmt::Display for Words<Edge> {
    fn fmt<W: fmt::Write>(&self, f: &mut fmt::Formatter<W>) -> fmt::Result {
        let Edge { from, role, to } = self.0;
        write!(f, "role {role} from {from} to {to}")
    }
}

impl fmt::Display for Words<Effect> {
    fn fmt<W: fmt::Write>(&self, f: &mut fmt::Formatter<W>) -> fmt::Result {
        match self.0 {
            Effect::Adds(c) => write!(f, "{}", Words(c)),
            Effect::AddsTwo(c, d) => write!(f, "{}, {}", Words(c), Words(d)),
            Effect::Links(e) => write!(f, "{}", Words(e)),
            Effect::Grows {
                from,
                role,
                form,
                node,
            } => write!(
                f,
                "role {role} from {from} to a new label, which {} node {node}",
                Words(form)
            ),
            Effect::GrowsTwo {
                from,
                role,
                first,
                second,
                node,
            } => write!(
                f,
                "role {role} from {from} to a new label, which {} node {node}, {} node {node}",
                Words(first),
                Words(second)
            ),
            Effect::Splits(c, d) => write!(f, "split, {}, {}", Words(c), Words(d)),
            Effect::Closes => write!(f, "closed"),
        }
    }
}

// A step, what it did, and, if it opened or closed a split, how many splits are then pending.
fn print_step<P: Print>(rt: &P, taken: TakenStep, pending: usize) -> io::Result<()> {
    let Step { op, a, b } = taken.step;
    print!(rt; "    step {op} {a} {b}: {}", Words(taken.effect))?;
    if taken.pending == pending {
        println!(rt; "")
    } else {
        println!(rt; "; splits pending {}", taken.pending)
    }
}

// Judges the steps against the book, with lists of these lengths.
pub(crate) fn refute<B: ReadableBook>(
    rt: &HostRuntime,
    book: &B,
    steps: &[u8],
    room: Room,
) -> anyhow::Result<()> {
    let heap = rt.alloc();
    let mut constraints = vec![in heap; Constraint::blank(); room.constraints]?;
    let mut edges = vec![in heap; Edge::blank(); room.edges]?;
    let mut splits = vec![in heap; Split::blank(); room.splits]?;
    println!(rt;
        "  refute, constraints {} edges {} splits {}:",
        room.constraints, room.edges, room.splits
    )?;
    let worked = work(heap, book, steps, &mut constraints, &mut edges, &mut splits)?;
    let mut pending = 0;
    for taken in &worked.trace {
        print_step(rt, *taken, pending)?;
        pending = taken.pending;
    }
    print!(rt; "    ")?;
    match worked.answer {
        Ok(used) => println!(rt; "closed, entries used {}", used.count())?,
        Err(fault) => calls::print_refusal(rt, &fault)?,
    }
    Ok(())
}
