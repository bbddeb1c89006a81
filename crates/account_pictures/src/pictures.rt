//! Pictures. No value of these types is made.
use crate::records::{Address, Records};
use crate::talk::Piece;
use mail_values::Text;
use std::collections::LinkedList;

/// What an account shows. A talk or the records are `None` if the link or the keeper doesn't tell them.
pub struct AccountPicture {
    /// The host's mail domain, which no call changes.
    pub domain: Text,
    pub mail_talk: Option<LinkedList<Piece>>,
    pub post_talk: Option<LinkedList<Piece>>,
    /// The records of all accounts' names, in the order of the names.
    pub records: Option<LinkedList<Records>>,
    /// How many calls of the mail link, the post link and the keeper have failed.
    pub mail_faults: u64,
    pub post_faults: u64,
    pub keeper_faults: u64,
    /// The messages whose bodies are held, the latest first.
    pub held: LinkedList<Address>,
    pub user: Option<Text>,
    pub password: Option<Text>,
    /// No connection to the mail server is up.
    pub is_down: bool,
    /// The next dial forgets what earlier dials told.
    pub dials_fresh: bool,
}

/// What a live session shows: its fields, with the turn and the story of its pass.
pub struct PlacePicture {
    pub account: u32,
    pub user: Text,
    pub token: Text,
    pub key: Text,
    /// The moment of its last ask, in seconds since 1970.
    pub last: i64,
    pub turn: u64,
    pub story: LinkedList<Piece>,
}

/// What a slot, the account that users are given, shows: the turn and the story of its pass, and the last user that had it.
pub struct SlotPicture {
    pub turn: u64,
    pub story: LinkedList<Piece>,
    pub user: Option<Text>,
}

/// What a roster shows: each place with the session that it has, and each slot.
pub struct RosterPicture {
    pub places: LinkedList<Option<PlacePicture>>,
    pub slots: LinkedList<SlotPicture>,
}

/// What the value of a desk shows.
pub enum Picture {
    Account(AccountPicture),
    Roster(RosterPicture),
}
