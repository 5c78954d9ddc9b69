// A strict order by rows: row x is the mask of the elements better than x. There is memory for 32 rows, of which
// the first `size` are used.
ghost use Rattle.std.specs.Prelude.{◌≡◌, slice_index};
ghost use Rattle.orders.specs.Masks.{Strict, by_rows, alone};

#[derive(Drop)]
pub struct Rows {
    size: u8,
    masks: [u32; 32],
    ghost strict: { ∥ Strict (by_rows size masks) ∥₁ },
}

impl Rows {
    // One element, and none better.
    pub(crate) fn new() -> Rows
        ensures { by_rows result.size result.masks ≡ alone }
    {
        Rows::of(1, [0; 32])
    }

    // The order of these masks.
    pub(crate) fn of(size: u8, masks: [u32; 32]) -> Rows
        requires { Strict (by_rows size masks) }
        ensures { by_rows result.size result.masks ≡ by_rows size masks }
    {
        Rows { size, masks }
    }

    pub(crate) fn size(&self) -> u8
        ensures { result ≡ self.now.size }
    {
        self.size
    }

    // Row x; empty past the last.
    pub(crate) fn better(&self, x: u8) -> u32
        ensures { result ≡ slice_index self.now.masks x }
    {
        self.masks.get(x as usize).copied().unwrap_or(0)
    }
}
