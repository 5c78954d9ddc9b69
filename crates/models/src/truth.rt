// Whether an entry is true.
ghost use Rattle.std.specs.Prelude.{◌↔◌, IsTrue};
ghost use Rattle.models.specs.Views.{view_meaning};
ghost use Rattle.models.specs.Extensions.{TruthOf};
ghost use Rattle.models.specs.NodeMasks.{TrueByMasks};

use crate::sets::set_at;
use crate::view::View;
use logic::records::Entry;
use orders::masks::{contains, includes};

// Whether the entry is true by the masks of the list, whatever they are. If the list has the set of each
// node of the entry's book: whether the entry is true in the model that the view means, with any order.
pub fn is_true(view: &View, list: &[u32], entry: Entry) -> bool
    ensures masks { IsTrue result ↔ TrueByMasks (view_meaning view.now) list.now entry }
    ensures truth { TruthOf (view_meaning view.now) list.now entry result }
{
    match entry {
        Entry::Inclusion(c, d) => includes(set_at(list, d), set_at(list, c)),
        Entry::Fact(x, c) => contains(set_at(list, c), view.element(x)),
        Entry::RoleFact(role, x, y) => contains(
            view.successors(role, view.element(x)),
            view.element(y),
        ),
        Entry::Absent => true,
    }
}
