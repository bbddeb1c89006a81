//! The outside of the records of accounts: the trait of what keeps them, and an implementation in memory.
//!
//! A `Keeper` keeps identities and send states for each account's name. It counts its faults, and if it can tell, it says which records
//! it has. `MemoryKeeper` is a keeper in memory, whose calls of given numbers fail.
#![tactic(auto)]

pub mod account_maps;
pub mod copies;
pub mod keeper;
pub mod memory_keeper;
pub mod read_back;
pub mod record_maps;

pub use account_pictures::{Identity, Records, SendState};
pub use keeper::{KeepFault, Keeper};
pub use mail_values::{Memory, Text};
pub use memory_keeper::MemoryKeeper;
pub use read_back::records_read_back;
