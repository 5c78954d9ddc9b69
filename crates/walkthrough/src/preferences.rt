// Fills orders from bytes: prints the better elements, and refusals.
use crate::calls;
use orders::filled::{Encoding, Filled};
use orders::masks::contains;
use orders::order::Order;
use orders::pairs::Pairs;
use orders::ranks::Ranks;
use std::io;

// Prints the size of an order and its pairs. Loops, since an order is read by number and each print can fail.
fn print_order<O: Order>(rt: &impl Print, order: &O) -> io::Result<()> {
    println!(rt; "granted, elements {}", order.size())?;
    for x in 0..order.size() {
        for y in 0..order.size() {
            if contains(order.better(x), y) {
                println!(rt; "    {y} is better than {x}")?;
            }
        }
    }
    Ok(())
}

fn fill<E: Encoding>(rt: &impl Print, order: &mut Filled<E>, bytes: &[u8]) -> io::Result<()> {
    match order.fill(bytes) {
        Ok(()) => print_order(rt, order),
        Err(fault) => calls::print_refusal(rt, &fault),
    }
}

pub(crate) fn fill_orders(rt: &impl Print) -> io::Result<()> {
    let mut pairs = Pairs::new();
    print!(rt; "  pairs 2, 0: ")?;
    fill(rt, &mut pairs, &[2, 0, 0, 0, 0, 0, 0, 0])?;
    print!(rt; "  pairs 2, 1: ")?;
    fill(rt, &mut pairs, &[2, 0, 0, 0, 1, 0, 0, 0])?;
    let mut ranks = Ranks::new();
    print!(rt; "  ranks 0, 0: ")?;
    fill(rt, &mut ranks, &[0, 0])?;
    print!(rt; "  no ranks: ")?;
    fill(rt, &mut ranks, &[])
}
