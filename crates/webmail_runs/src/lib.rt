//! The runs of the program `webmail`, as functions over sources and sinks.
#![tactic(auto)]

mod show;
mod status;
mod words;

pub use show::{LIMIT, run_show};
pub use status::{
    DONE, NO_SUCH_PART, NOT_BUILT, OUT_OF_MEMORY, READ_FAULT, Status, TOO_LONG, WRITE_FAULT,
    WRONG_WORDS, status_line,
};
