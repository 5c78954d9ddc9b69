// Tests of editable books at their limits, each on both kinds of book; and, in `offers`, of the functions that judge an
// offered record.
#![tactic(auto)]

#[cfg(test)]
mod answers;
#[cfg(test)]
mod limits;
#[cfg(test)]
mod offers;
#[cfg(test)]
mod records;
#[cfg(test)]
mod typicality;
