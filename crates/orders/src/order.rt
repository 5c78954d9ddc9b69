// A strict order on the elements below a size from 1 to 32.
ghost use Rattle.std.specs.Prelude.{◌≡◌};
ghost use Rattle.orders.specs.Masks.{Preference, Strict};

// It means, for each element, the set of the elements that are better. A query changes nothing, and its
// answer depends on the meaning alone.
pub trait Order {
    ghost meaning: { Self → Preference };

    // Each implementation gives the evidence.
    ghost strict: { (o : Self) → Strict (meaning o) };

    fn size(&self) -> u8
        ensures { result ≡ (meaning self.now).size };

    // The mask of the elements better than x; 0 past the size.
    fn better(&self, x: u8) -> u32
        ensures { result ≡ (meaning self.now).better x };
}
