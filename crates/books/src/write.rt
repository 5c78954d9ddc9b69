// Writing a list of records into any editable book.
ghost use Rattle.books.specs.Answers.{Offer, nodes, entries, OfferAnswer};
ghost use Rattle.books.specs.Writing.{ListAnswer};

use crate::book::EditableBook;
use crate::faults::{EnterFault, NodeFault, OfferFault};
use logic::records::{RawEntry, RawNode};

// A record that can be offered to a book: a node or an entry.
pub trait Offered: Copy {
    ghost offer: { Offer Self };

    // Its name in a message.
    const NAME: &'static str;

    // Offers the record.
    fn offer_to<B: EditableBook>(self, book: &mut B) -> Result<u16, OfferFault<Self>>
        ensures { OfferAnswer offer (B.ReadableBook.meaning book.old)
            (B.ReadableBook.meaning book.new) self result };
}

impl Offered for RawNode {
    ghost offer = { nodes };

    const NAME: &'static str = "node";

    fn offer_to<B: EditableBook>(self, book: &mut B) -> Result<u16, NodeFault> {
        book.node(self)
    }
}

impl Offered for RawEntry {
    ghost offer = { entries };

    const NAME: &'static str = "entry";

    fn offer_to<B: EditableBook>(self, book: &mut B) -> Result<u16, EnterFault> {
        book.enter(self)
    }
}

// Offers records one after the other, up to the first that is refused; those before it stay in the book.
pub fn write_all<B: EditableBook, R: Offered>(book: &mut B, raws: &[R]) -> Result<(), OfferFault<R>>
    ensures { ListAnswer R.offer (B.ReadableBook.meaning book.old)
        (B.ReadableBook.meaning book.new) raws.now result }
{
    for raw in raws {
        raw.offer_to(book)?;
    }
    Ok(())
}
