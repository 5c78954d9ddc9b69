// Tests of the judge at its limits.
#![tactic(auto)]

#[cfg(test)]
mod marked;
#[cfg(test)]
mod refute_forms;
#[cfg(test)]
mod refute_limits;
#[cfg(test)]
mod refute_rows;
#[cfg(test)]
mod refuted;
#[cfg(test)]
mod show;
#[cfg(test)]
mod show_fields;
