// Strict orders on at most 32 elements: what an order is, two kinds that are filled from bytes, and a type for
// either kind.
#![tactic(auto)]

pub mod any;
pub mod faults;
pub mod filled;
pub mod laws;
pub mod masks;
pub mod order;
pub mod pairs;
pub mod ranks;
mod rows;
