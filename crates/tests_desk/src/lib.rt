//! Tests of the desks, by their public calls alone. Each file has the tests of one crate, or a value that they use.
#![tactic(auto)]

#[cfg(test)]
mod account;
#[cfg(test)]
mod sessions;
#[cfg(test)]
mod turns;
#[cfg(test)]
mod visits;
