// The rules of the tableau: what a step does, by its op and by what it names.
ghost use Rattle.std.specs.Prelude.{◌≡◌, ◌<◌, true};
ghost use Rattle.logic.specs.Branches.{constraint, edge};
ghost use Rattle.logic.specs.Lawful.{node_within_limits, entry_within_limits};
ghost use Rattle.judge.specs.declared.effect.Effect.TheVariants.{Grows, GrowsTwo};
ghost use Rattle.judge.specs.declared.ops.Op.TheVariants.{Include};
ghost use Rattle.judge.specs.StepEffects.{entry_effect, constraint_effect};

use crate::effect::Effect;
use crate::effect::Effect::{Adds, AddsTwo, Closes, Grows, GrowsTwo, Links, Splits};
use crate::ops::Op;
use crate::ops::Op::{
    Absurd, AlongBetter, AlongRole, Assert, Atypical, Better, Clash, Conjunction, Disjunction,
    Include, Negation, Successor, Typical,
};
use logic::records::{Entry, Node};
use logic::tableau::Form::{Admits, Bars, Fails, Holds};
use logic::tableau::{Constraint, Edge, Form};

// The role of edges to better elements.
const BETTER: u8 = 16;

// The constraint on a node, at a label.
fn at(label: u8, form: Form, node: u16) -> Constraint
    ensures { result ≡ constraint label form node }
{
    Constraint { label, form, node }
}

// The edge from a label to another by a role.
fn leads(from: u8, role: u8, to: u8) -> Edge
    ensures { result ≡ edge from role to }
{
    Edge { from, role, to }
}

// A new label along a role, with a constraint.
fn grows(from: u8, role: u8, form: Form, node: u16) -> Effect
    ensures { result ≡ Grows from role form node }
{
    Grows {
        from,
        role,
        form,
        node,
    }
}

// A new label along a role, with two constraints on one node.
fn grows_two(from: u8, role: u8, first: Form, second: Form, node: u16) -> Effect
    ensures { result ≡ GrowsTwo from role first second node }
{
    GrowsTwo {
        from,
        role,
        first,
        second,
        node,
    }
}

// The effect of an op on an entry, at label x.
pub(crate) fn entry_effect(op: Op, entry: Entry, x: u16) -> Option<Effect>
    requires label { op ≡ Include → x < 256 }
    requires limits { entry_within_limits entry ≡ true }
    ensures { result ≡ entry_effect entry op x }
{
    let effect = match (op, entry) {
        (Assert, Entry::Fact(a, c)) => Adds(at(a as u8, Holds, c)),
        (Assert, Entry::RoleFact(r, a, b)) => Links(leads(a as u8, r as u8, b as u8)),
        (Include, Entry::Inclusion(c, d)) => Splits(at(x as u8, Fails, c), at(x as u8, Holds, d)),
        _ => return None,
    };
    Some(effect)
}

// The effect of an op on a constraint, which is on `node`. `edge` and `other` are what operand b may name.
#[inline(always)]
pub(crate) fn constraint_effect(
    op: Op,
    constraint: Constraint,
    node: Node,
    edge: Edge,
    other: Constraint,
) -> Option<Effect>
    requires { node_within_limits node ≡ true }
    ensures { result ≡ constraint_effect op constraint node edge other }
{
    let x = constraint.label;
    let n = constraint.node;
    let z = edge.to;
    let effect = match (op, constraint.form, node) {
        (Negation, Holds, Node::Not(c)) => Adds(at(x, Fails, c)),
        (Negation, Fails, Node::Not(c)) => Adds(at(x, Holds, c)),
        (Conjunction, Holds, Node::And(c, d)) => AddsTwo(at(x, Holds, c), at(x, Holds, d)),
        (Conjunction, Fails, Node::Or(c, d)) => AddsTwo(at(x, Fails, c), at(x, Fails, d)),
        (Disjunction, Holds, Node::Or(c, d)) => Splits(at(x, Holds, c), at(x, Holds, d)),
        (Disjunction, Fails, Node::And(c, d)) => Splits(at(x, Fails, c), at(x, Fails, d)),
        (Successor, Holds, Node::Exists(r, c)) => grows(x, r as u8, Holds, c),
        (Successor, Fails, Node::All(r, c)) => grows(x, r as u8, Fails, c),
        (AlongRole, Holds, Node::All(r, c)) if edge == leads(x, r as u8, z) => Adds(at(
            z, Holds, c,
        )),
        (AlongRole, Fails, Node::Exists(r, c)) if edge == leads(x, r as u8, z) => Adds(at(
            z, Fails, c,
        )),
        (Typical, Holds, Node::Typical(c)) => AddsTwo(at(x, Holds, c), at(x, Bars, c)),
        (Atypical, Fails, Node::Typical(c)) => Splits(at(x, Fails, c), at(x, Admits, c)),
        (Better, Admits, _) => grows_two(x, BETTER, Holds, Bars, n),
        (AlongBetter, Bars, _) if edge == leads(x, BETTER, z) => AddsTwo(
            at(z, Fails, n),
            at(z, Bars, n),
        ),
        (Clash, Holds, _) if other == at(x, Fails, n) => Closes,
        (Clash, Bars, _) if other == at(x, Admits, n) => Closes,
        (Absurd, Holds, Node::Bottom) | (Absurd, Fails, Node::Top) => Closes,
        _ => return None,
    };
    Some(effect)
}
