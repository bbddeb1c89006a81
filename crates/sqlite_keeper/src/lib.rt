//! A keeper of records in files: a SQLite database for each account.
//!
//! Each call opens the account's file, checks the version of its tables, runs its statement and closes the file. No clause can say what a
//! file holds, so the keeper tells no records; what is proved is which faults are counted.
#![tactic(auto)]

pub mod fault;
mod files;
mod keeping;
pub mod paths;
mod statements;
pub mod values;

pub use fault::FileFault;
pub use keeping::SqliteKeeper;
