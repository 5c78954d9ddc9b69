// Sets of elements as masks: bit x is element x, and there are at most 32.
ghost use Rattle.std.specs.Prelude.{◌≡◌, ◌↔◌, ℕ, min, Bool, not, ◌&&◌, IsTrue};
ghost use Rattle.orders.specs.Masks.{element_limit, has, all_below, mask_of, meeting, Within, Includes};

// The most elements of an order: one for each bit of a mask.
pub const ELEMENTS: u8 = 32;

// The set of all elements below n, at most 32.
pub fn all_below(n: u8) -> u32
    ensures { result ≡ all_below n }
{
    if n < ELEMENTS { (1 << n) - 1 } else { u32::MAX }
}

// Whether element x is in the set.
pub fn contains(set: u32, x: u8) -> bool
    ensures { result ≡ has set x }
{
    x < ELEMENTS && (set >> x) & 1 == 1
}

// Whether the set has only elements below n.
pub fn within(set: u32, n: u8) -> bool
    ensures { IsTrue result ↔ Within n set }
{
    set <= all_below(n)
}

// Whether the set has every element of the other.
pub fn includes(set: u32, other: u32) -> bool
    ensures { IsTrue result ↔ Includes set other }
{
    other | set == set
}

// Whether the two sets have an element in common.
pub fn meets(set: u32, other: u32) -> bool
    ensures { result ≡ meeting set other }
{
    set & other != 0
}

// The elements of the set that are not in the other.
pub fn without(set: u32, other: u32) -> u32
    ensures { (x : ℕ) → has result x ≡ (has set x && not (has other x)) }
{
    set ^ (set & other)
}

// A property of elements that can be tested. A trait, since a closure would need a `requires` at the call below.
pub trait Property {
    ghost holds: { Self → ℕ → Bool };

    fn test(&self, x: u8) -> bool
        ensures { result ≡ holds self.now x };
}

// The set of the elements below n, at most 32, that have the property.
pub fn mask_of<P: Property>(property: &P, n: u8) -> u32
    ensures { result ≡ mask_of (P.holds property.now) (min n element_limit) }
{
    // a loop that sets bit x, since the compiler can take several elements at once in it
    let mut mask = 0;
    for x in 0..n.min(ELEMENTS) {
        mask |= (property.test(x) as u32) << x;
    }
    mask
}
