//! What a member asks of the site, and what it replies.
#![tactic(auto)]

pub mod asks;
pub mod replies;

use account_pictures::Address;
pub use asks::{Ask, Flag, How};
use mail_values::Text;
pub use replies::{Kind, Reply};

/// A message that a member writes, as the fields of its form have it.
#[derive(Drop)]
pub struct Draft {
    /// The number of the form, which is in the message's identifier.
    pub form: u64,
    /// The number of the identity that it is sent as.
    pub identity: u8,
    pub to: Text,
    pub cc: Text,
    pub subject: Text,
    pub text: Text,
    /// The identifiers of the messages that it answers, the last one the nearest, each between `<` and `>`.
    pub refs: Text,
    /// The saved draft that it replaces.
    pub old: Option<Address>,
}
