//! Tests of keepers of records, by their public calls alone.
#![tactic(auto)]

#[cfg(test)]
mod keeping;
#[cfg(test)]
mod sending;
