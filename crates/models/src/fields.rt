// The fields of an interpretation as tables: reading them from bytes, and the lowest one that is bad.
ghost use Rattle.std.specs.Prelude.{◌≡◌, ℕ, ◌<◌, ◌≤◌, ◌↔◌, IsTrue, slice_index};
ghost use Rattle.orders.specs.Masks.{Tabulates};
ghost use Rattle.models.specs.Interpretations.{interpretation_of};
ghost use Rattle.models.specs.Tables.{by_tables};
ghost use Rattle.models.specs.Fields.{name, individual, Good, SuccessorsWithin, FirstWithout, FirstBad};

use crate::layout::{
    ELEMENTS, INDIVIDUALS, NAMES, ROLES, individual_place, name_place, role_place,
};
use logic::bytes::{byte_at, u32_at};
use orders::masks::within;
use std::array::from_fn;

// The number of elements, the set of each name, the successors of each element by each role, and the element of
// each individual.
#[derive(Clone, Copy)]
pub(crate) struct Tables {
    pub(crate) size: u8,
    pub(crate) names: [u32; NAMES],
    pub(crate) roles: [[u32; ELEMENTS]; ROLES],
    pub(crate) individuals: [u8; INDIVIDUALS],
}

// Whether `set` may be the successors of x, among n elements.
fn successors_within(n: u8, x: usize, set: u32) -> bool
    ensures { IsTrue result ↔ SuccessorsWithin n x set }
{
    within(set, n) && (x < n as usize || set == 0)
}

// The lowest element whose successors in the row of a role are bad. Past the end of a row the sets are empty.
fn first_bad_row(n: u8, row: &[u32; ELEMENTS]) -> Option<usize>
    ensures lowest { FirstWithout (λ x. SuccessorsWithin n x (slice_index row.now x)) ELEMENTS result }
    ensures past { (x : ℕ) → ELEMENTS ≤ x → slice_index row.now x ≡ 0 }
{
    row.iter()
        .enumerate()
        .position(|(x, set)| !successors_within(n, x, *set))
}

impl Tables {
    // The tables of the interpretation that the bytes encode.
    pub(crate) fn from_bytes(bytes: &[u8]) -> Tables
        ensures { by_tables result ≡ interpretation_of bytes.now }
    {
        Tables {
            size: byte_at(bytes, 0),
            names: from_fn(|a| u32_at(bytes, name_place(a))),
            roles: from_fn(
                |r|
                    requires { r < ROLES }
                    ensures { Tabulates ((interpretation_of bytes.entry.now).successors r) result }
                { from_fn(|x| u32_at(bytes, role_place(r, x))) },
            ),
            individuals: from_fn(|a| byte_at(bytes, individual_place(a))),
        }
    }

    // The lowest name whose set has an element from n on.
    fn first_name(&self) -> Option<usize>
        ensures { FirstWithout (λ a. Good (by_tables self.now) (name a)) NAMES result }
    {
        self.names.iter().position(|set| !within(*set, self.size))
    }

    // The lowest individual whose element is not below n.
    fn first_individual(&self) -> Option<usize>
        ensures { FirstWithout (λ a. Good (by_tables self.now) (individual a)) INDIVIDUALS result }
    {
        self.individuals.iter().position(|x| *x >= self.size)
    }

    // The first byte of the lowest bad field, if there is one.
    pub(crate) fn first_bad(&self) -> Option<usize>
        ensures { FirstBad (by_tables self.now) result }
    {
        if self.size < 1 || self.size as usize > ELEMENTS {
            return Some(0);
        }
        if let Some(a) = self.first_name() {
            return Some(name_place(a));
        }
        for (r, row) in self.roles.iter().enumerate() {
            if let Some(x) = first_bad_row(self.size, row) {
                return Some(role_place(r, x));
            }
        }
        self.first_individual().map(|a| individual_place(a))
    }
}
