// The docket: a working book with a standing that is always true.
#![tactic(auto)]

pub mod docket;
pub mod fault;
pub mod laws;
pub mod play;
pub mod standing;
