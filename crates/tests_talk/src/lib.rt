//! Tests of talks with a mail server: of links, and of what the server told on them.
#![tactic(auto)]

#[cfg(test)]
mod links;
#[cfg(test)]
mod listening;
#[cfg(test)]
mod rows;
#[cfg(test)]
mod views;
