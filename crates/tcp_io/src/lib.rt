//! A link to a server over TCP.
#![tactic(auto)]

mod connection;
mod link;

pub use link::TcpLink;
