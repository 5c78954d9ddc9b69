// The set of each node of a book, in a lent list.
ghost use Rattle.models.specs.Views.{view_meaning};
ghost use Rattle.judge.specs.NodeSets.{NodeSetsAnswer};

use crate::lists::{Blank, clear};
use crate::show_faults::FillFault;
use books::book::ReadableBook;
use logic::refusal::BadLength;
use models::sets::extension;
use models::view::View;
use orders::order::Order;

// The blank of a set is the empty set.
impl Blank for u32 {
    ghost zeroed = { 0 };

    fn blank() -> u32 {
        0
    }
}

// Fills the list with the mask of each node, in the order of the nodes, and then zeros. If it has no place
// for some node, it gets only zeros. The masks are the sets of a model only if the order has the view's size,
// which `examine` checks.
pub(crate) fn fill<B: ReadableBook, O: Order>(
    book: &B,
    view: &View,
    order: &O,
    list: &mut [u32],
) -> Result<(), FillFault>
    ensures { NodeSetsAnswer (B.meaning book.now) (view_meaning view.now) (O.meaning order.now)
        list.new result }
{
    clear(list);
    let count = book.node_count();
    if list.len() < count as usize {
        return Err(BadLength(list.len()));
    }
    // By index: `extension` reads the list that is filled.
    for i in 0..count {
        list[i as usize] = extension(view, order, list, book.node_at(i));
    }
    Ok(())
}
