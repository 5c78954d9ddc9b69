// The offsets of the fields of an interpretation: the size, a set for each name, a set for each role at each element,
// and an element for each individual. A set has four bytes.
ghost use Rattle.std.specs.Prelude.{◌≡◌, ◌<◌};
ghost use Rattle.models.specs.Fields.{first_byte, name, role, individual};

use logic::limits;
use orders::masks;

// Elements: they are numbered from 0 to 31.
pub const ELEMENTS: usize = masks::ELEMENTS as usize;

pub(crate) const NAMES: usize = limits::NAMES as usize;

pub(crate) const ROLES: usize = limits::ROLES as usize;

pub(crate) const INDIVIDUALS: usize = limits::INDIVIDUALS as usize;

// Bytes in a set.
pub const SET: usize = 4;

// The first bytes of the names, of the roles and of the individuals.
pub const FIRST_NAME: usize = 1;

pub const FIRST_ROLE: usize = FIRST_NAME + SET * NAMES;

pub const FIRST_INDIVIDUAL: usize = FIRST_ROLE + SET * ELEMENTS * ROLES;

// Bytes in an interpretation.
pub const LENGTH: usize = FIRST_INDIVIDUAL + INDIVIDUALS;

// The first byte of the set of a name.
pub(crate) fn name_place(a: usize) -> usize
    requires { a < NAMES }
    ensures { result ≡ first_byte (name a) }
{
    FIRST_NAME + SET * a
}

// The first byte of the set of a role at an element.
pub(crate) fn role_place(r: usize, x: usize) -> usize
    requires role { r < ROLES }
    requires element { x < ELEMENTS }
    ensures { result ≡ first_byte (role r x) }
{
    FIRST_ROLE + SET * (ELEMENTS * r + x)
}

// The byte of an individual.
pub(crate) fn individual_place(a: usize) -> usize
    requires { a < INDIVIDUALS }
    ensures { result ≡ first_byte (individual a) }
{
    FIRST_INDIVIDUAL + a
}
