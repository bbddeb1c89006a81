//! Tests of one member's account over a mail server in memory.
#![tactic(auto)]

#[cfg(test)]
mod asks;
#[cfg(test)]
mod causes;
#[cfg(test)]
mod faults;
#[cfg(test)]
mod replies;
#[cfg(test)]
mod server;
#[cfg(test)]
mod talks;
