// Marking for callers in C. `include/vuhlaten.h` says what each call does and what it requires of its caller.
#![tactic(auto)]

pub mod mark;
pub mod outcome;
