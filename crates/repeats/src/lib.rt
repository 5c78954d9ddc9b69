// For measuring: judges a hand-in repeatedly, against a book in its sealed bytes, in a slot table or in a journal.
#![tactic(auto)]

mod copy;
pub mod repeat;
