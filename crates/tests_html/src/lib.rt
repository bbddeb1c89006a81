//! Tests of the crates that read and write HTML, by their public calls alone. Each file has the tests of one crate.
#![tactic(auto)]

#[cfg(test)]
mod attributes;
#[cfg(test)]
mod names;
#[cfg(test)]
mod pages;
#[cfg(test)]
mod pieces;
#[cfg(test)]
mod rules;
#[cfg(test)]
mod styles;
#[cfg(test)]
mod tables;
#[cfg(test)]
mod tokens;
#[cfg(test)]
mod washing;
