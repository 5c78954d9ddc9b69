// Tests of reading hand-ins from folders: a folder in memory, and what is marked as what.
#![tactic(auto)]

#[cfg(test)]
mod marks;
pub mod memory;
