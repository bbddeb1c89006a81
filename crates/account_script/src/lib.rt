//! What an account says to its mail server for an ask, step by step.
//!
//! A script is a list of steps. [`act_at`] says what a step comes to after what was told so far: a dial, a command, a stop with its
//! cause, or nothing.
#![tactic(auto)]

pub mod cause;
pub mod copies;
pub mod folders;
pub mod scripts;
pub mod steps;

pub use cause::Cause;
pub use mail_values::Memory;
pub use scripts::{copy_script, script};
pub use steps::{Act, Credentials, Progress, Step, act_at, act_with, progress_at};
