//! Tests of submissions: what is said to a post server, and what becomes of a form whose sending fails.
#![tactic(auto)]

#[cfg(test)]
mod accounts;
#[cfg(test)]
mod posts;
#[cfg(test)]
mod sends;
