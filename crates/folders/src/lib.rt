// A hand-in as the files of a folder, and its verdict.
#![tactic(auto)]

pub mod disk;
pub mod folder;
pub mod hand_in;
