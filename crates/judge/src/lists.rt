// Work on lent lists of records. The first `len` records of a list are in use, and the others may be anything
// until the list is cleared.
ghost use Rattle.std.specs.Prelude.{◌≡◌, ◌+◌, ◌++◌, length, take, drop, replicate, nat_le, nat_lt, slice_index_or, is_ok, if◌then◌else◌};
ghost use Rattle.judge.specs.Lists.{Blanked};

use thiserror::Error;

// A record that has a blank: zero in each field. Not `Default`, from which generic code learns no value.
pub trait Blank: Copy {
    ghost zeroed: { Self };

    fn blank() -> Self
        ensures { result ≡ zeroed };
}

// A list has no room for more records.
#[derive(Clone, Copy, Debug, PartialEq, Eq, Error)]
#[error("no room in a working list")]
pub(crate) struct ListFull;

// Record i of the `len` in use, or a blank past them.
pub(crate) fn record_at<T: Blank>(list: &[T], len: usize, i: usize) -> T
    ensures { result ≡ (if nat_lt i len then slice_index_or list.now i T.zeroed else T.zeroed) }
{
    if i < len {
        list.get(i).copied().unwrap_or(T::blank())
    } else {
        T::blank()
    }
}

// Appends records after the first `len`, if there is room for all of them.
pub(crate) fn append<T: Blank>(list: &mut [T], len: usize, records: &[T]) -> Result<(), ListFull>
    ensures room { is_ok result ≡ nat_le (len + length records.now) (length list.old) }
    ensures list { list.new ≡ (
        if is_ok result
        then take len list.old ++ (records.now ++ drop (len + length records.now) list.old)
        else list.old
        ) }
{
    let room = list.len();
    if records.len() > room || len > room - records.len() {
        return Err(ListFull);
    }
    list[len..len + records.len()].copy_from_slice(records);
    Ok(())
}

// Blanks the records from `to` up to `len`, so that `to` records stay in use.
pub(crate) fn cut_back<T: Blank>(list: &mut [T], to: usize, len: usize)
    ensures { Blanked T.zeroed to len list.old list.new }
{
    let end = len.min(list.len());
    if to < end {
        // for one record a call of `clear` would take longer
        if end - to == 1 {
            list[to] = T::blank();
        } else {
            clear(&mut list[to..end]);
        }
    }
}

// Blanks the whole list.
pub fn clear<T: Blank>(list: &mut [T])
    ensures { list.new ≡ replicate (length list.old) T.zeroed }
{
    list.fill_with(|| T::blank());
}
