// Tests of orders at their limits.
#![tactic(auto)]

#[cfg(test)]
mod answers;
#[cfg(test)]
mod any;
#[cfg(test)]
mod pairs;
#[cfg(test)]
mod ranks;
