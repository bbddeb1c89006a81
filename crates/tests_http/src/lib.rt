//! Tests of requests and replies of HTTP.
#![tactic(auto)]

#[cfg(test)]
mod long;
#[cfg(test)]
mod replies;
#[cfg(test)]
mod requests;
#[cfg(test)]
mod shown;
#[cfg(test)]
mod tables;
