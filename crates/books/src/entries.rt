// Entries with their live marks.
ghost use Rattle.std.specs.Prelude.{◌≡◌, ◌<◌, true, vec_len, vec_capacity, slice_index_or, slice_set};
ghost use Rattle.logic.specs.Books.{no_stored_entry, struck};

use logic::records::{Entry, StoredEntry};

// A new entry, which is live.
pub(crate) fn taken(entry: Entry) -> StoredEntry
    ensures { result ≡ record { entry = entry; live = true } }
{
    StoredEntry { entry, live: true }
}

// Strikes entry i.
pub(crate) fn strike_entry(entries: &mut Vec<StoredEntry>, i: u16)
    requires { i < vec_len entries.old }
    ensures items { entries.new.items ≡ slice_set entries.old.items i
        (struck (slice_index_or entries.old.items i no_stored_entry)) }
    ensures len { vec_len entries.new ≡ vec_len entries.old }
    ensures capacity { vec_capacity entries.new ≡ vec_capacity entries.old }
{
    entries[i as usize].live = false;
}
