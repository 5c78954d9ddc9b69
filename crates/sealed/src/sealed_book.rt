// A book that is read from the sealed bytes it was opened on; nothing is copied.
ghost use Rattle.std.specs.Prelude.{◌≡◌, Err, IfOk, IfErr};
ghost use Rattle.sealed.specs.Frames.{book_in};
ghost use Rattle.sealed.specs.Writing.{SealedAs};
ghost use Rattle.sealed.specs.Checks.{CheckAnswer, Opened};
ghost use Rattle.sealed.specs.Steps.{PassesOrEmpty};
ghost use Rattle.logic.specs.Lawful.{Lawful};
ghost use Rattle.logic.proofs.Deciding.{lawful_known};

use crate::check::checked;
use crate::faults::CheckFault;
use crate::frame::Frame;
use books::book::ReadableBook;
use logic::records::{Node, StoredEntry};

// The sealed bytes and their two counts: check passes, or both counts are 0. So the book is lawful. Its queries
// read the records at their offsets.
#[derive(Clone, Copy)]
pub struct SealedBook<'a> {
    frame: Frame<'a>,
    ghost stands: { PassesOrEmpty frame.bytes.now frame.counts.nodes frame.counts.entries },
    ghost lawful: { ∥ Lawful (book_in frame) ∥₁ },
}

impl<'a> SealedBook<'a> {
    ghost use Rattle.sealed.specs.SealedBooks.{meaning, opened_on};

    // The book that is sealed in these bytes, or the fault of `check`.
    pub fn read(bytes: &'a [u8]) -> Result<SealedBook<'a>, CheckFault>
        ensures granted { IfOk result (λ b. SealedAs bytes.now (meaning b)) }
        ensures within { IfOk result (λ b. opened_on b ≡ bytes.now) }
        ensures refused { IfErr result (λ f. CheckAnswer bytes.now (Err f)) }
    {
        let frame = checked(bytes)?;
        Ok(SealedBook { frame })
    }

    // The book that is sealed in these bytes, or the empty book if check refuses them.
    pub fn open(bytes: &'a [u8]) -> SealedBook<'a>
        ensures within { opened_on result ≡ bytes.now }
        ensures opened { Opened bytes.now (meaning result) }
    {
        let frame = checked(bytes).unwrap_or(Frame::empty(bytes));
        SealedBook { frame }
    }
}

impl<'a> ReadableBook for SealedBook<'a> {
    ghost use Rattle.sealed.specs.SealedBooks.{meaning};

    ghost meaning = { meaning };

    ghost lawful = { λ b. lawful_known _ b.lawful };

    #[tactic(auto, using(crate::proofs::Framing::frame_nodes))]
    fn node_count(&self) -> u16 {
        self.frame.counts.nodes
    }

    #[tactic(auto, using(crate::proofs::Framing::frame_entries))]
    fn entry_count(&self) -> u16 {
        self.frame.counts.entries
    }

    fn node_at(&self, i: u16) -> Node {
        self.frame.node_at(i)
    }

    fn entry_at(&self, i: u16) -> StoredEntry {
        self.frame.stored_at(i)
    }
}
