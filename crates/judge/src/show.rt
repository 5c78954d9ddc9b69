// Shows that an interpretation and an order are a model of a book.
ghost use Rattle.std.specs.Prelude.{◌≡◌, length};
ghost use Rattle.logic.specs.Books.{stored_at};
ghost use Rattle.models.specs.Fields.{FirstWithout};
ghost use Rattle.models.specs.Views.{view_meaning};
ghost use Rattle.judge.specs.ShowAnswers.{TrueIfLive, IsLiveAndFalse, FindsFirstFalse, ExamineAnswer, ShowPromise};

use crate::fill::fill;
use crate::lists::clear;
use crate::show_faults::ShowFault;
use books::book::ReadableBook;
use logic::records::StoredEntry;
use models::truth::is_true;
use models::view::View;
use orders::order::Order;

// Whether the entry is live and false, by the masks of the list.
fn is_live_and_false(view: &View, list: &[u32], stored: StoredEntry) -> bool
    ensures { IsLiveAndFalse (view_meaning view.now) list.now stored result }
{
    stored.live && !is_true(view, list, stored.entry)
}

// The lowest live entry that is false by the masks of the list, whatever they are. If the list has the set
// of each node, it is the lowest that is false in the model that the view means, with any order.
fn first_false<B: ReadableBook>(book: &B, view: &View, list: &[u32]) -> Option<u16>
    ensures lowest { FirstWithout
        (λ k. TrueIfLive (view_meaning view.now) list.now (stored_at (B.meaning book.now) k))
        (length (B.meaning book.now).entries) result }
    ensures found { FindsFirstFalse (B.meaning book.now) (view_meaning view.now) list.now result }
{
    (0..book.entry_count()).find(|i| is_live_and_false(view, list, book.entry_at(*i)))
}

// What is found in a hand-in that can be judged.
#[derive(Clone, Copy)]
pub struct Examined {
    // the interpretation
    pub view: View,
    // the lowest live entry that is false, if one is
    pub lowest_false: Option<u16>,
}

// Reads the interpretation in the bytes, and finds the lowest live entry of the book that is false in it, with
// the order as its "better". A false entry is not a refusal here, so the answer is never `EntryFails`. `list`
// may hold anything, and should have a place for each node. Afterwards it holds the set of each node and then
// zeros, or only zeros if the answer is a refusal.
pub fn examine<B: ReadableBook, O: Order>(
    book: &B,
    bytes: &[u8],
    order: &O,
    list: &mut [u32],
) -> Result<Examined, ShowFault>
    ensures long { length list.new ≡ length list.old }
    ensures answer { ExamineAnswer (B.meaning book.now) bytes.now (O.meaning order.now)
        list.new result }
{
    clear(list);
    let view = View::read(bytes)?;
    let size = order.size();
    if size != view.size() {
        return Err(ShowFault::OrderSize(size));
    }
    fill(book, &view, order, list)?;
    let lowest_false = first_false(book, &view, list);
    Ok(Examined { view, lowest_false })
}

// Whether the interpretation in the bytes, with the order as its "better", satisfies the live entries of
// the book: the number of its elements, or why not. The list may hold anything, and should have a place
// for each node. Afterwards it holds the set of each node and then zeros, if the answer is a number or an
// entry that fails; otherwise only zeros.
pub fn show<B: ReadableBook, O: Order>(
    book: &B,
    bytes: &[u8],
    order: &O,
    list: &mut [u32],
) -> Result<u8, ShowFault>
    ensures { ShowPromise (B.ReadableBook.meaning book.now) bytes.now (O.Order.meaning order.now)
        (length list.old) list.new result }
{
    let Examined { view, lowest_false } = examine(book, bytes, order, list)?;
    match lowest_false {
        Some(i) => Err(ShowFault::EntryFails(i)),
        None => Ok(view.size()),
    }
}
