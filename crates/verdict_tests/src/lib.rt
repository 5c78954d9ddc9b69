// Tests of verdicts: their lines, and the marking of hand-ins.
#![tactic(auto)]

#[cfg(test)]
mod faults;
#[cfg(test)]
mod lines;
#[cfg(test)]
mod marks;
