//! The tests of the message crates, by their public calls alone.
#![tactic(auto)]

#[cfg(test)]
mod codings;
#[cfg(test)]
mod contents;
#[cfg(test)]
mod flowed;
#[cfg(test)]
mod headers;
#[cfg(test)]
mod references;
#[cfg(test)]
mod streams;
#[cfg(test)]
mod trees;
#[cfg(test)]
mod values;
