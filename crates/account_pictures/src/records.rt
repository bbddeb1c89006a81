//! What a keeper keeps for accounts, and where a message is.
use mail_values::Text;
use std::collections::LinkedList;

/// A message of a mail server: its folder, the folder's UIDVALIDITY, and its UID there (RFC 9051 §2.3.1.1).
#[derive(Drop)]
pub struct Address {
    pub folder: Text,
    pub validity: u32,
    pub uid: u32,
}

/// A name and an address that a member writes as.
#[derive(Drop)]
pub struct Identity {
    pub name: Text,
    pub address: Text,
}

/// How far the one submission of a form has come. A form without a state was never sent.
#[derive(Drop)]
pub enum SendState {
    /// The submission was begun.
    Started,
    /// The server took the message.
    Done,
    /// The server may have taken it: the link broke before its answer.
    Doubt,
}

/// What is kept under one account's name: identities by their numbers, 1 to 16, and states by form numbers. Both lists
/// are in order of the numbers, and each number occurs once.
#[derive(Drop)]
pub struct Records {
    pub account: Text,
    pub identities: LinkedList<(u8, Identity)>,
    pub sends: LinkedList<(u64, SendState)>,
}
