// An order that is filled from bytes, in some encoding.
ghost use Rattle.std.specs.Prelude.{◌≡◌, ◌↔◌, ℕ, List, IfOk, IfErr, IsOk};
ghost use Rattle.orders.specs.Masks.{Preference, alone};
ghost use Rattle.orders.specs.RowOrders.{order_of_rows, order_strict};
ghost use Rattle.orders.specs.Answers.{FillAnswer};

use crate::order::Order;
use crate::rows::Rows;
use logic::refusal::Refusal;
use std::marker::PhantomData;

// A way to write an order as bytes.
pub trait Encoding {
    type Fault: Refusal + Drop;

    // the bytes that encode an order, and the order that they encode
    ghost Lawful: { List ℕ → Type 0 };

    ghost order_of_bytes: { List ℕ → Preference };

    // which fault is returned for bytes that encode no order
    ghost Refused: { List ℕ → Self.Fault → Type 0 };

    // The order that the bytes encode, or the fault.
    fn read(bytes: &[u8]) -> Result<Rows, Self::Fault>
        ensures granted { IfOk result (λ r. order_of_rows r ≡ order_of_bytes bytes.now) }
        ensures refused { IfErr result (Refused bytes.now) }
        ensures exact { IsOk result ↔ Lawful bytes.now };
}

// An order that was filled from bytes of the encoding E, or a fresh one.
#[derive(Drop)]
pub struct Filled<E> {
    rows: Rows,
    encoding: PhantomData<E>,
}

impl<E> Filled<E> {
    ghost use Rattle.orders.specs.Orders.{meaning};

    // One element, and none better.
    pub fn new() -> Filled<E>
        ensures { meaning result ≡ alone }
    {
        Filled {
            rows: Rows::new(),
            encoding: PhantomData,
        }
    }
}

impl<E: Encoding> Filled<E> {
    ghost use Rattle.orders.specs.Orders.{meaning};

    // Takes the order that the bytes encode; granted exactly when they are lawful. A refusal changes nothing.
    pub fn fill(&mut self, bytes: &[u8]) -> Result<(), E::Fault>
        ensures answer { FillAnswer E.Lawful E.order_of_bytes E.Refused
            (meaning self.old) (meaning self.new) bytes.now result }
        ensures exact { IsOk result ↔ E.Lawful bytes.now }
    {
        self.rows = E::read(bytes)?;
        Ok(())
    }
}

impl<E> Order for Filled<E> {
    ghost use Rattle.orders.specs.Orders.{meaning};

    ghost meaning = { meaning };

    ghost strict = { λ o. order_strict o.rows };

    fn size(&self) -> u8 {
        self.rows.size()
    }

    fn better(&self, x: u8) -> u32 {
        self.rows.better(x)
    }
}
