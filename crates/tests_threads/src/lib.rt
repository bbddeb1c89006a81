//! Tests of what threads are made of: base subjects and message identifiers.
#![tactic(auto)]

#[cfg(test)]
mod mailboxes;
#[cfg(test)]
mod subjects;
