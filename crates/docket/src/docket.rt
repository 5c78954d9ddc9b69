// A working book with a standing.
ghost use Rattle.std.specs.Prelude.{◌≡◌, List, [], ◌∷◌, IfOk};
ghost use Rattle.judge.specs.Blanks.{lengths, AllBlank};
ghost use Rattle.docket.specs.Events.{Event};
ghost use Rattle.docket.specs.Runs.{MovesAll, Run, state_of, Reached};
ghost use Rattle.docket.specs.Laws.{LawfulRun};

use crate::fault::Fault;
use crate::laws::docket_law;
use crate::standing::{Granted, Standing};
use books::book::EditableBook;
use judge::refute::refute;
use judge::show::show;
use judge::used::Used;
use judge::working::Split;
use logic::records::{RawEntry, RawNode};
use logic::tableau::{Constraint, Edge};
use orders::order::Order;
use std::alloc::{AllocError, Global};
use std::marker::Model;

// The book is reached through the docket alone. A refused call leaves all three as they were.
#[derive(Drop)]
pub struct Docket<B: EditableBook> {
    book: B,
    standing: Standing,
    used: Used,
}

// In contracts a docket is its book, standing and used entries; the invariant says that some run reaches it.
impl<B: EditableBook> Model for Docket<B> {
    ghost use Rattle.docket.specs.Runs.{Contents, contents, Reached};

    ghost Value = { Contents };

    ghost view = { λ d. contents (B.ReadableBook.meaning d.book) d.standing d.used };

    ghost invariant = { λ d. Reached (contents (B.ReadableBook.meaning d.book) d.standing d.used) };
}

impl<B: EditableBook> Docket<B> {
    // A docket with a new book, empty and open: a run begins.
    pub fn new(heap: Global) -> Result<Docket<B>, AllocError>
        ensures { IfOk result (λ d. Run [] (state_of d)) }
    {
        let book = B::new(heap)?;
        Ok(Docket {
            book,
            standing: Standing::Open,
            used: Used::new(),
        })
    }

    // Returns the standing and extends the run. Some run leads here, and the whole law holds of each that does.
    pub fn standing(&self) -> Standing
        ensures answer { result ≡ self.now.standing }
        ensures run { MovesAll (Event.standing result ∷ [])
            (state_of self.now) (state_of self.now) }
        ensures reached { Reached self.now }
        ensures law { (h : List Event)
            → Run h (state_of self.now) → LawfulRun h (state_of self.now) }
    {
        docket_law();
        self.standing
    }

    // Appends a node to the book, and returns its number.
    pub fn node(&mut self, raw: RawNode) -> Result<u16, Fault>
        ensures { MovesAll (Event.node raw result ∷ []) (state_of self.old) (state_of self.new) }
    {
        Ok(self.book.node(raw)?)
    }

    // Appends an entry to the book, and returns its number.
    pub fn enter(&mut self, raw: RawEntry) -> Result<u16, Fault>
        ensures { MovesAll (Event.enter raw result ∷ []) (state_of self.old) (state_of self.new) }
    {
        let i = self.book.enter(raw)?;
        self.standing.follow(Granted::Entered);
        Ok(i)
    }

    // Strikes a live entry of the book.
    pub fn strike(&mut self, i: u16) -> Result<(), Fault>
        ensures { MovesAll (Event.strike i result ∷ []) (state_of self.old) (state_of self.new) }
    {
        self.book.strike(i)?;
        self.standing.follow(Granted::Struck {
            used: self.used.has(i),
        });
        Ok(())
    }

    // Judges a tableau against the book, and returns how many entries it used. The lists are blank
    // afterwards.
    pub fn refute(
        &mut self,
        bytes: &[u8],
        constraints: &mut [Constraint],
        edges: &mut [Edge],
        splits: &mut [Split],
    ) -> Result<u16, Fault>
        ensures run { MovesAll
            (Event.refute bytes.now (lengths constraints.old edges.old splits.old) result ∷ [])
            (state_of self.old) (state_of self.new) }
        ensures blank { AllBlank (lengths constraints.old edges.old splits.old)
            constraints.new edges.new splits.new }
    {
        let used = refute(&self.book, bytes, constraints, edges, splits)?;
        let count = used.count();
        self.used = used;
        self.standing.follow(Granted::Closed);
        Ok(count)
    }

    // Judges a model against the book, with an order of any type, and returns the number of its elements. The
    // list is left as the judge leaves it.
    pub fn show<O: Order>(&mut self, bytes: &[u8], order: &O, list: &mut [u32]) -> Result<u8, Fault>
        ensures { MovesAll (Event.show bytes.now (O.Order.meaning order.now) list.new result ∷ [])
            (state_of self.old) (state_of self.new) }
    {
        let n = show(&self.book, bytes, order, list)?;
        self.standing.follow(Granted::Satisfied);
        Ok(n)
    }
}
