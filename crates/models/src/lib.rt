// Models in bytes: a validated view of an interpretation, the set of each concept, and which entries
// are true.
#![tactic(auto)]

pub mod faults;
mod fields;
pub mod laws;
pub mod layout;
mod questions;
mod read;
pub mod sample;
pub mod sets;
pub mod truth;
pub mod view;
