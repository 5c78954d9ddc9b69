// Runs the sample rows: prints what the calls answer for each input. `rows_hold` of the crate `verdict` proves that the
// contracts allow only these answers.
#![tactic(auto)]

use books::book::{EditableBook, ReadableBook};
use books::journal::Journal;
use books::sample;
use books::slot_table::SlotTable;
use books::write::write_all;
use judge::lists::Blank;
use judge::refute::refute;
use judge::show::show;
use judge::working::Split;
use logic::records::Node;
use logic::refusal::{Refusal, Report};
use logic::tableau::Constraint;
use models::sample::model_bytes;
use orders::filled::{Encoding, Filled};
use orders::pairs::Pairs;
use orders::ranks::Ranks;
use sealed::seal::seal;
use std::alloc::{AllocError, Global};
use std::io;

fn print_refusal<F: Refusal>(rt: &impl Print, fault: &F) -> io::Result<()> {
    let Report { number, place } = fault.report();
    println!(rt; "refused {number} at {place}")
}

// Fills the order from the bytes, and shows the sample model with it.
fn show_model<B: ReadableBook, E: Encoding>(
    rt: &impl Print,
    book: &B,
    order: &mut Filled<E>,
    bytes: &[u8],
) -> io::Result<()> {
    if let Err(fault) = order.fill(bytes) {
        return print_refusal(rt, &fault);
    }
    let mut list = [0; 7];
    match show(book, &model_bytes(), order, &mut list) {
        Ok(n) => println!(rt; "satisfied, elements {n}, list {list:?}"),
        Err(fault) => print_refusal(rt, &fault),
    }
}

// Judges the tableau with lists of these lengths, and none for edges: no row has an edge.
fn refute_book<B: ReadableBook>(
    rt: &HostRuntime,
    book: &B,
    steps: &[u8],
    constraints: usize,
    splits: usize,
) -> anyhow::Result<()> {
    let heap = rt.alloc();
    let mut constraints = vec![in heap; Constraint::blank(); constraints]?;
    let mut splits = vec![in heap; Split::blank(); splits]?;
    match refute(book, steps, &mut constraints, &mut [], &mut splits) {
        Ok(used) => println!(rt; "closed, entries used {}", used.count())?,
        Err(fault) => print_refusal(rt, &fault)?,
    }
    Ok(())
}

// Seals the book: prints the length, and the last eight bytes in hex. A loop, since each print can fail.
fn seal_book<B: ReadableBook>(rt: &impl Print, book: &B) -> io::Result<()> {
    let mut out = [0; 64];
    match seal(book, &mut out) {
        Ok(length) => {
            print!(rt; "{length} bytes, ending")?;
            for byte in &out[length.saturating_sub(8)..length] {
                print!(rt; " {byte:02x}")?;
            }
            println!(rt; "")
        }
        Err(fault) => print_refusal(rt, &fault),
    }
}

fn offer_node<B: EditableBook>(rt: &impl Print, book: &mut B, node: Node) -> io::Result<()> {
    match book.node(node.into()) {
        Ok(i) => println!(rt; "granted, node {i}"),
        Err(fault) => print_refusal(rt, &fault),
    }
}

// A new book with the sample records.
fn sample_book<B: EditableBook>(heap: Global) -> Result<B, AllocError> {
    let mut book: B = EditableBook::new(heap)?;
    let _ = write_all(&mut book, &sample::NODES);
    let _ = write_all(&mut book, &sample::ENTRIES);
    Ok(book)
}

// Prints the eight rows. `asked` is the sample book with the question.
fn run<B: EditableBook>(rt: &HostRuntime) -> anyhow::Result<()> {
    let mut book: B = sample_book(rt.alloc())?;
    let mut asked: B = sample_book(rt.alloc())?;
    let _ = asked.enter(sample::QUESTION);
    print!(rt; "  1. show, pairs 2, 0: ")?;
    show_model(rt, &book, &mut Pairs::new(), &[2, 0, 0, 0, 0, 0, 0, 0])?;
    print!(rt; "  2. show, ranks 0, 0: ")?;
    show_model(rt, &book, &mut Ranks::new(), &[0, 0])?;
    print!(rt; "  3. fill, pairs 2, 1: ")?;
    show_model(rt, &book, &mut Pairs::new(), &[2, 0, 0, 0, 1, 0, 0, 0])?;
    print!(rt; "  4. refute with the question, 5 constraints and 1 split: ")?;
    refute_book(rt, &asked, &sample::REFUTATION, 5, 1)?;
    print!(rt; "  5. the same, 4 constraints: ")?;
    refute_book(rt, &asked, &sample::REFUTATION, 4, 1)?;
    print!(rt; "  6. refute by the wrong steps, 7 constraints and 2 splits: ")?;
    refute_book(rt, &book, &sample::WRONG_STEPS, 7, 2)?;
    print!(rt; "  7. seal: ")?;
    seal_book(rt, &book)?;
    print!(rt; "  8. node T(3): ")?;
    Ok(offer_node(rt, &mut book, Node::Typical(3))?)
}

fn main(rt: HostRuntime) -> anyhow::Result<()> {
    println!(rt; "The sample rows over a slot table")?;
    run::<SlotTable>(&rt)?;
    println!(rt; "The sample rows over a journal")?;
    run::<Journal>(&rt)
}
