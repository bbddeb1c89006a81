//! What an account answers after its turn with the mail server.
//!
//! [`done_answer`] is the answer to an ask whose script came to its end, made of what was told; `specs/Done.antt` defines it.
//! [`stopped_answer`] is the answer if a cause stopped the script. `specs/Answers.antt` has the table of causes.
#![tactic(auto)]

pub mod answer;
mod done;
mod sends;
mod texts;

pub use account_script::Cause;
pub use answer::{Answer, Body, stopped_answer, unkept_answer, unreachable_answer};
pub use done::done_answer;
pub use page_writer::{Memory, PageBytes};
pub use sends::{sent_answer, unsent_answer};
