// Calls of a docket, with answers that can be compared.
use books::book::EditableBook;
use books::faults::{OfferFault, Reason, Unfit};
use books::sample;
use docket::docket::Docket;
use docket::fault::Fault;
use judge::lists::Blank;
use logic::records::{RawEntry, RawNode};
use models::sample::model_bytes;
use orders::pairs::Pairs;

pub(crate) type Answer<T> = Result<T, Fault>;

// A record that does not fit a book, which has `count` of its sort.
pub(crate) fn unfit<R>(why: Unfit, count: u16) -> OfferFault<R> {
    OfferFault::new(Reason::Unfit(why), count)
}

pub(crate) fn node<B: EditableBook>(
    docket: &mut Docket<B>,
    kind: u8,
    a: u16,
    b: u16,
) -> Answer<u16> {
    docket.node(RawNode { kind, a, b })
}

pub(crate) fn enter<B: EditableBook>(
    docket: &mut Docket<B>,
    kind: u8,
    a: u16,
    b: u16,
    c: u16,
) -> Answer<u16> {
    docket.enter(RawEntry { kind, a, b, c })
}

// Refutes with lists of 5 constraints, 1 edge and 1 split.
pub(crate) fn refute<B: EditableBook>(docket: &mut Docket<B>, steps: &[u8]) -> Answer<u16> {
    let mut constraints = [Blank::blank(); 5];
    let mut edges = [Blank::blank(); 1];
    let mut splits = [Blank::blank(); 1];
    docket.refute(steps, &mut constraints, &mut edges, &mut splits)
}

// Shows the sample model with these pairs and a list of 7.
pub(crate) fn show_sample<B: EditableBook>(docket: &mut Docket<B>, pairs: &[u8]) -> Answer<u8> {
    let mut order = Pairs::new();
    let _ = order.fill(pairs);
    docket.show(&model_bytes(), &order, &mut [0; 7])
}

// Writes the sample book.
pub(crate) fn write_sample<B: EditableBook>(docket: &mut Docket<B>) {
    for raw in &sample::NODES {
        let _ = docket.node(*raw);
    }
    for raw in &sample::ENTRIES {
        let _ = docket.enter(*raw);
    }
}
