// Judges hand-ins against a rule book: `show` judges models, `refute` tableaux. Books and orders are given
// by their traits.
#![tactic(auto)]

pub mod effect;
pub mod faults;
mod fill;
pub mod laws;
pub mod lists;
mod ops;
pub mod refute;
mod rule;
pub mod show;
pub mod show_faults;
mod step;
pub mod step_fault;
mod steps;
pub mod used;
pub mod watch;
pub mod working;
