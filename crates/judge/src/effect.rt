// What a step does to the current branch, and how it is done in the working lists.
ghost use Rattle.std.specs.Prelude.{Some};
ghost use Rattle.logic.specs.Branches.{with};
ghost use Rattle.judge.specs.declared.effect.Effect.TheVariants.{Splits};
ghost use Rattle.judge.specs.Blanks.{SameLists};
ghost use Rattle.judge.specs.WorkingLists.{SixteenBitCounts, HoldsSomeState, work_state, resumed_state, state_after, TransformsState};

use crate::lists::{append, cut_back};
use crate::step_fault::StepFault;
use crate::working::{Counts, Lists, Split};
use logic::tableau::{Constraint, Edge, Form};

#[derive(Clone, Copy)]
pub enum Effect {
    // one more constraint
    Adds(Constraint),
    // two more constraints
    AddsTwo(Constraint, Constraint),
    // one more edge
    Links(Edge),
    // a new label, an edge to it by a role, and a constraint at it
    Grows {
        from: u8,
        role: u8,
        form: Form,
        node: u16,
    },
    // a new label, an edge to it by a role, and two constraints at it on one node
    GrowsTwo {
        from: u8,
        role: u8,
        first: Form,
        second: Form,
        node: u16,
    },
    // two branches, each with one more constraint; the first comes first
    Splits(Constraint, Constraint),
    // the branch is contradictory
    Closes,
}

impl Lists<'_> {
    // Appends constraints and edges.
    fn extend(
        &mut self,
        at: Counts,
        cs: &[Constraint],
        es: &[Edge],
    ) -> Result<Option<Counts>, StepFault>
        ensures same { SameLists self.old self.new }
        ensures transforms { TransformsState self.old at self.new
            (λ br ps. Some (work_state (with br cs.now es.now) ps)) result }
    {
        append(self.constraints, at.constraints, cs)?;
        append(self.edges, at.edges, es)?;
        Ok(Some(Counts {
            constraints: at.constraints + cs.len(),
            edges: at.edges + es.len(),
            ..at
        }))
    }

    // Puts the first alternative of a split on the branch, and keeps the second as pending.
    fn split(
        &mut self,
        at: Counts,
        first: Constraint,
        second: Constraint,
    ) -> Result<Option<Counts>, StepFault>
        requires { SixteenBitCounts at }
        ensures same { SameLists self.old self.new }
        ensures transforms { TransformsState self.old at self.new
            (state_after (Splits first second)) result }
    {
        let pending = Split {
            constraints: at.constraints as u16,
            edges: at.edges as u16,
            labels: at.labels,
            second,
        };
        append(self.splits, at.splits, &[pending])?;
        append(self.constraints, at.constraints, &[first])?;
        Ok(Some(Counts {
            constraints: at.constraints + 1,
            splits: at.splits + 1,
            ..at
        }))
    }

    // Closes the branch: resumes the latest pending split, if there is one, with its second alternative.
    fn close(&mut self, at: Counts) -> Result<Option<Counts>, StepFault>
        requires { HoldsSomeState self.old at }
        ensures same { SameLists self.old self.new }
        ensures transforms { TransformsState self.old at self.new
            (λ _ ps. resumed_state ps) result }
    {
        let Some(left) = at.splits.checked_sub(1) else {
            return Ok(None);
        };
        let latest = self.splits[left];
        let constraints = latest.constraints as usize;
        let edges = latest.edges as usize;
        cut_back(self.splits, left, at.splits);
        cut_back(self.constraints, constraints, at.constraints);
        cut_back(self.edges, edges, at.edges);
        append(self.constraints, constraints, &[latest.second])?;
        Ok(Some(Counts {
            constraints: constraints + 1,
            edges,
            splits: left,
            labels: latest.labels,
        }))
    }

    // Does the effect.
    #[inline(always)]
    pub(crate) fn apply(&mut self, effect: Effect, at: Counts) -> Result<Option<Counts>, StepFault>
        requires state { HoldsSomeState self.old at }
        requires small { SixteenBitCounts at }
        ensures same { SameLists self.old self.new }
        ensures transforms { TransformsState self.old at self.new (state_after effect) result }
    {
        match effect {
            Effect::Adds(c) => self.extend(at, &[c], &[]),
            Effect::AddsTwo(c, d) => self.extend(at, &[c, d], &[]),
            Effect::Links(e) => self.extend(at, &[], &[e]),
            Effect::Grows {
                from,
                role,
                form,
                node,
            } => {
                let (label, at) = at.with_label()?;
                let c = Constraint { label, form, node };
                let e = Edge {
                    from,
                    role,
                    to: label,
                };
                self.extend(at, &[c], &[e])
            }
            Effect::GrowsTwo {
                from,
                role,
                first,
                second,
                node,
            } => {
                let (label, at) = at.with_label()?;
                let c = Constraint {
                    label,
                    form: first,
                    node,
                };
                let d = Constraint {
                    label,
                    form: second,
                    node,
                };
                let e = Edge {
                    from,
                    role,
                    to: label,
                };
                self.extend(at, &[c, d], &[e])
            }
            Effect::Splits(c, d) => self.split(at, c, d),
            Effect::Closes => self.close(at),
        }
    }
}
