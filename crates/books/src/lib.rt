// Rule books: the traits of a book to read and of a book to edit, the tests of an offered record, and two books to
// edit, the slot table and the journal.
#![tactic(auto)]

pub mod book;
mod entries;
pub mod faults;
pub mod journal;
mod journal_record;
mod lists;
mod marked;
pub mod offers;
pub mod sample;
pub mod slot_table;
pub mod write;
