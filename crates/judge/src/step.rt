// One step of a tableau. The clauses quantify over all branches and states: the functions are not given one.
ghost use Rattle.std.specs.Prelude.{◌≡◌, ◌≤◌, MatchOption};
ghost use Rattle.logic.specs.Branches.{Branch};
ghost use Rattle.judge.specs.Blanks.{SameLists, lengths_of};
ghost use Rattle.judge.specs.Ops.{has_operand};
ghost use Rattle.judge.specs.StepEffects.{operand_records, by_entry, by_constraint, step_effect};
ghost use Rattle.judge.specs.WorkingLists.{Counted, WorkState, HoldsState, SixteenBitCounts, HoldsSomeState};
ghost use Rattle.judge.specs.Taking.{TakeAnswer};

use crate::effect::Effect;
use crate::lists::{Blank, record_at};
use crate::ops::{Op, Operand};
use crate::rule::{constraint_effect, entry_effect};
use crate::step_fault::StepFault;
use crate::working::{Counts, Lists};
use books::book::ReadableBook;
use logic::limits::LABELS;
use logic::tableau::{Constraint, Edge, Step};

// A step that was taken: its effect, and the counts afterwards; none if the last branch is closed.
#[derive(Clone, Copy)]
pub(crate) struct Taken {
    pub(crate) effect: Effect,
    pub(crate) at: Option<Counts>,
}

impl Taken {
    // How many splits are pending afterwards.
    pub(crate) fn pending(self) -> usize
        ensures { MatchOption self.at (result ≡ 0) (λ at. result ≡ at.splits) }
    {
        match self.at {
            Some(at) => at.splits,
            None => 0,
        }
    }
}

// Whether the branch has what operand b names.
fn has_operand(operand: Operand, b: u16, at: Counts) -> bool
    ensures { (br : Branch) → Counted at br → result ≡ has_operand operand br b }
{
    match operand {
        Operand::Unused => true,
        Operand::Label => b < at.labels,
        Operand::Edge => (b as usize) < at.edges,
        Operand::Constraint => (b as usize) < at.constraints,
    }
}

// The effect of an op that names an entry.
fn by_entry<B: ReadableBook>(book: &B, op: Op, step: Step, at: Counts) -> Result<Effect, StepFault>
    requires { at.labels ≤ LABELS }
    ensures { (br : Branch) → Counted at br → result ≡ by_entry (B.meaning book.now) br op step }
{
    if step.a >= book.entry_count() {
        return Err(StepFault::NeverEntered);
    }
    if !has_operand(op.second(), step.b, at) {
        return Err(StepFault::NotThere);
    }
    let stored = book.entry_at(step.a);
    if !stored.live {
        return Err(StepFault::Struck);
    }
    entry_effect(op, stored.entry, step.b).ok_or(StepFault::Misfit)
}

// The edge and the constraint that operand b names; blanks in place of what it does not name.
fn operand_records(operand: Operand, b: u16, lists: &Lists, at: Counts) -> (Edge, Constraint)
    ensures { (σ : WorkState) → HoldsState lists.now at σ
        → result ≡ operand_records operand σ.branch b }
{
    let b = b as usize;
    match operand {
        Operand::Edge => (record_at(lists.edges, at.edges, b), Constraint::blank()),
        Operand::Constraint => (
            Edge::blank(),
            record_at(lists.constraints, at.constraints, b),
        ),
        _ => (Edge::blank(), Constraint::blank()),
    }
}

// The effect of an op that names a constraint.
fn by_constraint<B: ReadableBook>(
    book: &B,
    op: Op,
    step: Step,
    lists: &Lists,
    at: Counts,
) -> Result<Effect, StepFault>
    ensures { (σ : WorkState) → HoldsState lists.now at σ →
        result ≡ by_constraint (B.meaning book.now) σ.branch op step }
{
    let a = step.a as usize;
    if a >= at.constraints || !has_operand(op.second(), step.b, at) {
        return Err(StepFault::NotThere);
    }
    let c = record_at(lists.constraints, at.constraints, a);
    let (edge, other) = operand_records(op.second(), step.b, lists, at);
    constraint_effect(op, c, book.node_at(c.node), edge, other).ok_or(StepFault::Misfit)
}

// The effect of a step on an open branch.
fn decide<B: ReadableBook>(
    book: &B,
    step: Step,
    lists: &Lists,
    at: Counts,
) -> Result<Effect, StepFault>
    requires { at.labels ≤ LABELS }
    ensures { (σ : WorkState) → HoldsState lists.now at σ →
        result ≡ step_effect (B.meaning book.now) σ.branch step }
{
    let op = Op::try_from(step.op).map_err(|_| StepFault::Malformed)?;
    if op.second() == Operand::Unused && step.b != 0 {
        return Err(StepFault::Malformed);
    }
    match op {
        Op::Assert | Op::Include => by_entry(book, op, step, at),
        _ => by_constraint(book, op, step, lists, at),
    }
}

// Takes one step on an open branch.
pub(crate) fn take<B: ReadableBook>(
    book: &B,
    step: Step,
    lists: &mut Lists,
    at: Counts,
) -> Result<Taken, StepFault>
    requires state { HoldsSomeState lists.old at }
    requires small { SixteenBitCounts at }
    ensures same { SameLists lists.old lists.new }
    ensures answer { (σ : WorkState) → HoldsState lists.old at σ →
        TakeAnswer (B.meaning book.now) (lengths_of lists.old) (HoldsState lists.new)
        σ.branch σ.pending step result }
{
    let effect = decide(book, step, lists, at)?;
    let at = lists.apply(effect, at)?;
    Ok(Taken { effect, at })
}
