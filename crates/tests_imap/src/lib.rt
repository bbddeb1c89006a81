//! Tests of the IMAP crates by their public calls: commands, framing, the grammar of responses, and the reader of a connection.
#![tactic(auto)]

#[cfg(test)]
mod commands;
#[cfg(test)]
mod framing;
#[cfg(test)]
mod grammar;
#[cfg(test)]
mod reader;
#[cfg(test)]
mod uid_sets;
