//! The pages of the site with forms, and those that say what is wrong.
#![tactic(auto)]

mod compose;
mod identities;
mod others;

pub use compose::{compose_page, form_text};
pub use identities::identity_page;
pub use others::{fault_page, login_page};
pub use page_writer::{Memory, PageBytes};
