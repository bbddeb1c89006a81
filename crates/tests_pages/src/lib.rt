//! Tests of the pages of folders and messages.
#![tactic(auto)]

#[cfg(test)]
mod folders;
#[cfg(test)]
mod messages;
#[cfg(test)]
mod pages;
