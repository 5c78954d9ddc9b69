// Sealed books: check tests bytes, a sealed book is read from them, and seal writes them.
#![tactic(auto)]

mod bytes;
pub mod check;
mod counts;
pub mod faults;
mod frame;
pub mod seal;
pub mod sealed_book;
