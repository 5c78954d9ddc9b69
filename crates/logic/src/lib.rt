// The records of rule books and tableaux, and their limits. The definitions are in specs/: the meaning of records,
// lawful books, refusals, the rules of the tableau.
#![tactic(auto)]

pub mod bytes;
pub mod laws;
pub mod limits;
pub mod records;
pub mod refusal;
pub mod tableau;
pub mod written;
