// Tests of sealed bytes: what is sealed reads back, and damaged bytes are refused at their place.
#![tactic(auto)]

#[cfg(test)]
mod damage;
#[cfg(test)]
mod filled;
#[cfg(test)]
mod round;
