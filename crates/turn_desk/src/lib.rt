//! One turn of a value at a time: a desk, and passes that show what was seen of it.
//!
//! A `Desk` keeps a value behind a lock. `Desk::turn` runs a piece of `Work` on it; the turns of a desk are numbered from 1
//! in the order in which they were made. A `Pass` belongs to whoever takes turns. It shows the last turn that it saw: its
//! number, its pictures before and after the work, and the value's story at its end. The story at the start of a turn goes on
//! from the story that the pass had seen.
//!
//! A desk's passes know each other through one word of an `atomic_table`, whose rule carries what is known from thread to
//! thread. The table is made before it has a name, as a `Blank`; `Names` then names the table of each desk's number.
#![tactic(auto)]

mod desk;
mod locked;
mod naming;
mod pass;
mod steps;
mod table;
mod views;
mod work;

pub use desk::Desk;
pub use naming::{Blank, Names};
pub use pass::Pass;
pub use table::DeskTable;
pub use views::{Sight, View};
pub use work::{Storied, Work};
