//! What a page may hold: the elements, attributes and kinds of value that are listed, and which pages are allowed.
//!
//! The tables are in `specs/Tables.antt`, each list once and one row a line. `IsAllowed` in `specs/Allowed.antt` is what the
//! product promises of each page that it writes; the laws below say what follows from it.
#![tactic(auto)]

mod laws;

ghost use Rattle.std.specs.Prelude.{◌≡◌};
ghost use Rattle.html_rules.specs.Tables.{is_void as is_void_name};

pub use laws::{allowed_pages_are_known, allowed_pages_have_one_mail, allowed_pages_load};

/// The kinds of value that the attributes of a message have. The table of kinds says which attribute has which.
#[derive(Clone, Copy)]
pub enum ValueKind {
    /// An optional sign, 1 to 5 digits, an optional `%`.
    Number,
    /// 1 to 32 ASCII letters, digits, `-` and `#`.
    Word,
    /// An empty value: the attribute's presence says it all.
    Flag,
    /// Any text.
    Text,
    /// An address to which a click leads.
    Link,
    /// An address from which a picture is loaded.
    Source,
    /// Declarations of CSS.
    Style,
}

/// Whether an element of this name has neither content nor an end tag (HTML Standard, 13.1.2, void elements).
#[tactic(auto, unfolding(crate::specs::Tables::is_void, crate::specs::Tables::message_void_elements, crate::specs::Tables::frame_void_elements))]
pub fn is_void(name: &str) -> bool
    ensures { result ≡ is_void_name name.now }
{
    name == "br"
        || name == "col"
        || name == "hr"
        || name == "img"
        || name == "wbr"
        || name == "meta"
        || name == "link"
        || name == "input"
}
