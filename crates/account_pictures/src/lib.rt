//! What contracts see of an account and of the roster of sessions at one moment.
//!
//! An account and a roster are values behind locks, full of maps, buffers and connections. A contract about them speaks of
//! their `Picture`: plain data that a person can read. Code makes none, since a picture is the view of a type that has
//! more. `Piece`, `Address`, `Identity` and `SendState` are ordinary values too, the ones that pictures are made of.
#![tactic(auto)]

pub mod pictures;
pub mod records;
pub mod talk;

pub use pictures::{AccountPicture, Picture, PlacePicture, RosterPicture, SlotPicture};
pub use records::{Address, Identity, Records, SendState};
pub use talk::Piece;
