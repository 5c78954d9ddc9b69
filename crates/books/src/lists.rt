// Reading a list, also past its end.
ghost use Rattle.std.specs.Prelude.{◌≡◌, slice_index_or};

// Item i, or `past` from the end on.
pub(crate) fn item_or<T: Copy>(items: &[T], i: u16, past: T) -> T
    ensures { result ≡ slice_index_or items.now i past }
{
    items.get(i as usize).copied().unwrap_or(past)
}
