// Judges the sample model against the sample book, with an order that satisfies the rules and one that does not.
use crate::calls;
use books::book::ReadableBook;
use judge::show::show;
use models::sample;
use orders::order::Order;
use orders::pairs::Pairs;
use orders::ranks::Ranks;
use std::io;

// Prints the verdict, and the list afterwards: the set of each node, or zeros.
fn hand_in<B: ReadableBook, O: Order>(
    rt: &impl Print,
    book: &B,
    bytes: &[u8],
    order: &O,
) -> io::Result<()> {
    let mut list = [0; 7];
    match show(book, bytes, order, &mut list) {
        Ok(n) => println!(rt; "satisfied, elements {n}")?,
        Err(fault) => calls::print_refusal(rt, &fault)?,
    }
    println!(rt; "    list {list:?}")
}

pub(crate) fn show_models<B: ReadableBook>(rt: &impl Print, book: &B) -> io::Result<()> {
    println!(rt; "The sample model has 2 elements. Name masks: release 3, yanked 1, paired 2.")?;
    let bytes = sample::model_bytes();
    let mut pairs = Pairs::new();
    let _ = pairs.fill(&[2, 0, 0, 0, 0, 0, 0, 0]);
    print!(rt; "  show, with pairs 2, 0: ")?;
    hand_in(rt, book, &bytes, &pairs)?;
    let mut ranks = Ranks::new();
    let _ = ranks.fill(&[0, 0]);
    print!(rt; "  show, with ranks 0, 0: ")?;
    hand_in(rt, book, &bytes, &ranks)?;
    print!(rt; "  show, of the first 2336 bytes: ")?;
    hand_in(rt, book, bytes.get(..2336).unwrap_or(&[]), &pairs)
}
