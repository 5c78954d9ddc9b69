// Tests of the docket, over both working books.
#![tactic(auto)]

#[cfg(test)]
mod answers;
#[cfg(test)]
mod cells;
#[cfg(test)]
mod played;
#[cfg(test)]
mod refusals;
#[cfg(test)]
mod second_tableau;
