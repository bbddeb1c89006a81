//! Messages linked by their references, and each one's place among the links (RFC 5256, REFERENCES, step 1).
#![tactic(auto)]

mod arena;
mod dates;
mod facts;
mod linked;
mod linking;
mod names;
mod numbering;
mod places;

pub use dates::date_order;
pub use facts::{Facts, copy_all};
pub use linked::Linked;
pub use linking::Places;
pub use places::{Place, entry, set_first};
