//! The tests of the crates that build messages, by their public calls alone.
#![tactic(auto)]

#[cfg(test)]
mod addresses;
#[cfg(test)]
mod drafts;
