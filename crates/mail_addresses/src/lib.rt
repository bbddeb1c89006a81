//! Reads lists of mail addresses, as a person writes them in a form.
#![tactic(auto)]

mod address;
mod boxes;
mod quoted;
mod reading;
mod runs;

pub use address::is_address;
pub use boxes::mailboxes;
use mail_values::Text;
pub use reading::AddressFault;
pub use runs::{skip_spaces, trim_end};

/// A box of a list: the name before it, which is empty if there is none, and its `local@domain`.
#[derive(Drop)]
pub struct Mailbox {
    pub name: Text,
    pub address: Text,
}
