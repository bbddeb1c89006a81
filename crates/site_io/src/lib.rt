//! What a site has to do with the world: callers, the door that they come in by, the clock, and random words.
//!
//! A `Caller` and a `Door` count their faults. An object that can tell says what it has heard and sent, whom it let in and who
//! left, or which values it returned. `ScriptedCaller`, `ScriptedDoor`, `ListClock` and `ListDraw` are implementations in memory.
#![tactic(auto)]

pub mod caller;
pub mod door;
pub mod moments;
pub mod scripted_caller;
pub mod scripted_door;
pub mod series;

pub use caller::Caller;
pub use door::Door;
pub use mail_io::Failed;
pub use moments::{Clock, Draw};
pub use scripted_caller::ScriptedCaller;
pub use scripted_door::ScriptedDoor;
pub use series::{ListClock, ListDraw};
