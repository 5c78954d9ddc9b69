// The set of each concept, as a mask: bit x is element x.
ghost use Rattle.std.specs.Prelude.{◌≡◌, not, ◌&&◌, slice_index};
ghost use Rattle.orders.specs.Masks.{has, meeting};
ghost use Rattle.models.specs.Views.{view_meaning};
ghost use Rattle.models.specs.Extensions.{SetOfNode, Complement, SomeSuccessorIn, BestOf};
ghost use Rattle.models.specs.NodeMasks.{AllSuccessorsIn, MaskOfNode};

use crate::view::View;
use logic::records::Node;
use orders::masks::{Property, all_below, contains, mask_of, meets, without};
use orders::order::Order;

// Set i of the list; empty past the end.
pub(crate) fn set_at(list: &[u32], i: u16) -> u32
    ensures { result ≡ slice_index list.now i }
{
    list.get(i as usize).copied().unwrap_or(0)
}

// The property of an element that a role leads from it into a set. A type, since a closure would need a `requires` on
// the public call `mask_of`.
#[derive(Drop)]
struct SuccessorIn<'a> {
    row: &'a [u32],
    set: u32,
}

impl<'a> Property for SuccessorIn<'a> {
    ghost holds = { λ p x. meeting (slice_index p.row.now x) p.set };

    fn test(&self, x: u8) -> bool {
        let row = self.row;
        meets(row.get(x as usize).copied().unwrap_or(0), self.set)
    }
}

// The property of an element to be in a set that has no better one.
#[derive(Drop)]
struct Best<'a, O> {
    order: &'a O,
    set: u32,
}

impl<'a, O: Order> Property for Best<'a, O> {
    ghost holds = { λ p x. has p.set x
        && not (meeting ((O.Order.meaning p.order.now).better x) p.set) };

    // `&` and not `&&`, so that many elements are tested at once.
    fn test(&self, x: u8) -> bool {
        contains(self.set, x) & !meets(self.order.better(x), self.set)
    }
}

// The elements that are not in the set.
fn complement(view: &View, set: u32) -> u32
    ensures { Complement (view_meaning view.now) set result }
{
    without(all_below(view.size()), set)
}

// The elements from which the role leads into the set.
fn some_successor_in(view: &View, role: u16, set: u32) -> u32
    ensures { SomeSuccessorIn (view_meaning view.now) role set result }
{
    let row = view.row(role);
    mask_of(&SuccessorIn { row, set }, view.size())
}

// The elements from which the role leads only into the set.
fn all_successors_in(view: &View, role: u16, set: u32) -> u32
    ensures { AllSuccessorsIn (view_meaning view.now) role set result }
{
    complement(view, some_successor_in(view, role, complement(view, set)))
}

// The typical elements of a set: those elements of `set` with no better element in `set`.
fn typical<O: Order>(order: &O, set: u32) -> u32
    ensures { BestOf (O.meaning order.now) set result }
{
    mask_of(&Best { order, set }, order.size())
}

// The mask of a node, from the masks that the list has for its operands, whatever they are. If the list has
// the sets of the concepts of the earlier nodes, and the order has the view's elements, it is the set of the
// node's concept.
pub fn extension<O: Order>(view: &View, order: &O, list: &[u32], node: Node) -> u32
    ensures mask { MaskOfNode (view_meaning view.now) (O.meaning order.now) list.now node result }
    ensures set { SetOfNode (view_meaning view.now) (O.meaning order.now) list.now node result }
{
    match node {
        Node::Top => all_below(view.size()),
        Node::Bottom => 0,
        Node::Name(a) => view.name(a),
        Node::Not(c) => complement(view, set_at(list, c)),
        Node::And(c, d) => set_at(list, c) & set_at(list, d),
        Node::Or(c, d) => set_at(list, c) | set_at(list, d),
        Node::All(role, c) => all_successors_in(view, role, set_at(list, c)),
        Node::Exists(role, c) => some_successor_in(view, role, set_at(list, c)),
        Node::Typical(c) => typical(order, set_at(list, c)),
        Node::Absent => 0,
    }
}
