//! What the seats of a desk's table know. No value of these types is made.
use account_pictures::{Picture, Piece};
use std::collections::LinkedList;

/// A turn and a story that a view met.
pub struct Sight {
    pub turn: u64,
    pub story: LinkedList<Piece>,
}

/// What a seat has seen: the number of a turn, 0 before the first, the story at its end, its pictures before and after the
/// work, and what the view met.
pub struct View {
    pub turn: u64,
    pub story: LinkedList<Piece>,
    pub opened: Picture,
    pub closed: Picture,
    pub met: LinkedList<Sight>,
    /// The view is the home seat's, the one under the desk's lock.
    pub is_home: bool,
    /// The seat met into another and is gone.
    pub is_spent: bool,
}
