//! A turn of an account with its mail server: what a script says is said, and what the server answers is heard.
//!
//! `specs/Turns.antt` defines what is due at each moment of a turn. [`follow`] promises that the talk of its link goes on by pieces that
//! are due, each when it comes, and to which end.
#![tactic(auto)]

pub mod endings;
mod exchange;
mod listening;
mod steps;

pub use account_script::{Cause, Credentials, Progress, Step};
pub use endings::{Ending, Last, keeps_up};
pub use mail_values::Memory;
pub use steps::follow;
