//! One member's account: logins, and answers to asks, over a link to the mail server, another to the post server, and a keeper of records.
//!
//! `specs/Served.antt` says what an ask does to an [`Account`], `specs/Sends.antt` what sending a form does, and `specs/Logins.antt` what a login
//! does.
#![tactic(auto)]

mod account;
mod asks;
mod faults;
mod laws;
mod logins;
mod once;
mod sending;

pub use account::Account;
pub use account_answers::{Answer, Cause};
pub use faults::LoginFault;
pub use laws::{
    asks_are_answered, connections_are_tried, folders_are_caught_up, folders_are_listed,
    members_are_logged_in, messages_are_copied, messages_are_fetched,
};
pub use mail_values::Memory;
pub use once::forms_are_sent_once;
