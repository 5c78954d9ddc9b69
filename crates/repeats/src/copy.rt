// Copies a book into a working book. `None` if memory runs out; a lawful book is always accepted.
ghost use Rattle.std.specs.Prelude.{◌≡◌, ◌+◌, ◌<◌, length, IfSome};
ghost use Rattle.logic.specs.Books.{empty};
ghost use Rattle.repeats.specs.Copies.{copied_nodes, copied_entries};

use books::book::{EditableBook, ReadableBook};
use logic::records::{RawEntry, RawNode};
use std::alloc::Global;

// Copies the nodes into an empty book.
fn copy_nodes<B: ReadableBook, W: EditableBook>(book: &B, copy: &mut W) -> Option<()>
    requires { W.ReadableBook.meaning copy.old ≡ empty }
    ensures { IfSome result (λ _.
        W.ReadableBook.meaning copy.new ≡ copied_entries (B.meaning book.now) 0) }
{
    for i in 0..book.node_count() {
        if copy.node(RawNode::from(book.node_at(i))).is_err() {
            return None;
        }
    }
    Some(())
}

// Copies entry j with its live mark, after the earlier ones.
fn copy_entry<B: ReadableBook, W: EditableBook>(book: &B, j: u16, copy: &mut W) -> Option<()>
    requires within { j < length (B.meaning book.now).entries }
    requires before { W.ReadableBook.meaning copy.old ≡ copied_entries (B.meaning book.now) j }
    ensures { IfSome result (λ _.
        W.ReadableBook.meaning copy.new ≡ copied_entries (B.meaning book.now) (j + 1)) }
{
    let stored = book.entry_at(j);
    let Ok(entry) = copy.enter(RawEntry::from(stored.entry)) else {
        return None;
    };
    if stored.live {
        return Some(());
    }
    match copy.strike(entry) {
        Ok(()) => Some(()),
        Err(_) => None,
    }
}

// Copies the entries with their live marks, after the nodes.
fn copy_entries<B: ReadableBook, W: EditableBook>(book: &B, copy: &mut W) -> Option<()>
    requires { W.ReadableBook.meaning copy.old ≡ copied_entries (B.meaning book.now) 0 }
    ensures { IfSome result (λ _. W.ReadableBook.meaning copy.new ≡ B.meaning book.now) }
{
    for j in 0..book.entry_count() {
        copy_entry(book, j, copy)?;
    }
    Some(())
}

// A working book with the same meaning.
pub(crate) fn copied<B: ReadableBook, W: EditableBook>(heap: Global, book: &B) -> Option<W>
    ensures { IfSome result (λ w. W.ReadableBook.meaning w ≡ B.meaning book.now) }
{
    let mut copy = W::new(heap).ok()?;
    copy_nodes(book, &mut copy)?;
    copy_entries(book, &mut copy)?;
    Some(copy)
}
