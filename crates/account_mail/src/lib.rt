//! An account's side of its mail server: it logs in, and carries out asks, each in one turn of its link.
//!
//! A [`MailSide`] keeps what the talk of its link tells. `specs/Turned.antt` says what a turn does to it.
#![tactic(auto)]

mod side;
mod turns;

pub use account_turns::{Cause, Credentials, Ending};
pub use mail_values::Memory;
pub use side::MailSide;
