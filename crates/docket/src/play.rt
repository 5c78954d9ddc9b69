// A list of calls, played on a new docket.
ghost use Rattle.std.specs.Prelude.{◌≡◌, List, [], ◌∷◌, length, replicate, IfOk};
ghost use Rattle.judge.specs.Blanks.{lengths, AllBlank};
ghost use Rattle.docket.specs.Events.{Event};
ghost use Rattle.docket.specs.Runs.{MovesAll, Run};
ghost use Rattle.docket.specs.Laws.{LawfulRun};
ghost use Rattle.docket.specs.Runs.{state_of};
ghost use Rattle.docket.specs.Plays.{Asks, Played};

use crate::docket::Docket;
use crate::laws::docket_law;
use books::book::EditableBook;
use judge::lists::clear;
use judge::working::Split;
use logic::records::{RawEntry, RawNode};
use logic::tableau::{Constraint, Edge};
use orders::order::Order;
use std::alloc::{AllocError, Global};

// One call, with its arguments except the working lists: bytes S and an order O. Both are type parameters, since
// an enum that holds a reference itself cannot yet hold an order that has an invariant.
#[derive(Drop)]
pub enum Call<S, O> {
    Node(RawNode),
    Enter(RawEntry),
    Strike(u16),
    Refute(S),
    Show(S, O),
    Standing,
}

// Makes one call; its answer is in the event.
fn make<B: EditableBook, O: Order>(
    docket: &mut Docket<B>,
    call: &Call<&[u8], O>,
    constraints: &mut [Constraint],
    edges: &mut [Edge],
    splits: &mut [Split],
    sets: &mut [u32],
)
    ensures { (e : Event)
        × Asks O.Order.meaning (lengths constraints.old edges.old splits.old) (length sets.old)
        call.now e
        × MovesAll (e ∷ []) (state_of docket.old) (state_of docket.new) }
{
    match call {
        Call::Node(raw) => {
            let _ = docket.node(*raw);
        }
        Call::Enter(raw) => {
            let _ = docket.enter(*raw);
        }
        Call::Strike(i) => {
            let _ = docket.strike(*i);
        }
        Call::Refute(bytes) => {
            let _ = docket.refute(*bytes, constraints, edges, splits);
        }
        Call::Show(bytes, order) => {
            let _ = docket.show(*bytes, order, sets);
        }
        Call::Standing => {
            let _ = docket.standing();
        }
    }
}

// Makes the calls, one after the other, on a new docket.
fn make_all<B: EditableBook, O: Order>(
    heap: Global,
    calls: &[Call<&[u8], O>],
    constraints: &mut [Constraint],
    edges: &mut [Edge],
    splits: &mut [Split],
    sets: &mut [u32],
) -> Result<Docket<B>, AllocError>
    ensures { IfOk result (λ d.
        (h : List Event)
        × Played O.Order.meaning (lengths constraints.old edges.old splits.old) (length sets.old) calls.now h
        × Run h (state_of d)
        × LawfulRun h (state_of d)) }
{
    docket_law();
    let mut docket: Docket<B> = Docket::new(heap)?;
    for call in calls {
        make(&mut docket, call, constraints, edges, splits, sets);
    }
    Ok(docket)
}

// Plays the calls, one after the other, on a new docket, and returns it. A run leads to it, whose events are
// these calls in order, and the whole law holds of it. Afterwards every record of the lent lists is blank, and
// every set is 0, also after an error. The error: no memory for the new book.
pub fn play<B: EditableBook, O: Order>(
    heap: Global,
    calls: &[Call<&[u8], O>],
    constraints: &mut [Constraint],
    edges: &mut [Edge],
    splits: &mut [Split],
    sets: &mut [u32],
) -> Result<Docket<B>, AllocError>
    ensures run { IfOk result (λ d.
        (h : List Event)
        × Played O.Order.meaning (lengths constraints.old edges.old splits.old) (length sets.old) calls.now h
        × Run h (state_of d)
        × LawfulRun h (state_of d)) }
    ensures blank { AllBlank (lengths constraints.old edges.old splits.old)
        constraints.new edges.new splits.new }
    ensures zeros { sets.new ≡ replicate (length sets.old) 0 }
{
    let docket = make_all(heap, calls, constraints, edges, splits, sets);
    clear(constraints);
    clear(edges);
    clear(splits);
    clear(sets);
    docket
}
