//! What a server can do.
ghost use Rattle.std.specs.Prelude.{◌≡◌, false};
ghost use Rattle.mailbox_view.specs.View.{has_word, no_abilities, without_names, with_names, with_enabled};

use imap_values::{Slices, eq_ignore_case};

/// What a server said that it can do (RFC 9051 §7.2).
#[derive(Clone, Copy)]
pub struct Abilities {
    /// The CAPABILITY responses of the last Capability name IMAP4rev2.
    pub names_rev2: bool,
    /// They name QRESYNC.
    pub names_qresync: bool,
    /// The ENABLED responses of the last Enable name QRESYNC.
    pub enables_qresync: bool,
}

impl Abilities {
    pub fn nothing() -> Self
        ensures { result ≡ no_abilities }
    {
        Abilities {
            names_rev2: false,
            names_qresync: false,
            enables_qresync: false,
        }
    }

    /// Forgets what CAPABILITY responses named.
    pub fn forget_names(&mut self)
        ensures { self.new ≡ without_names self.old }
    {
        self.names_rev2 = false;
        self.names_qresync = false;
    }

    /// Takes note of a CAPABILITY response.
    pub fn note_names(&mut self, names: &Slices)
        ensures { self.new ≡ with_names names.now self.old }
    {
        if has_word(b"imap4rev2", names) {
            self.names_rev2 = true;
        }
        if has_word(b"qresync", names) {
            self.names_qresync = true;
        }
    }

    /// Takes note of an ENABLED response.
    pub fn note_enabled(&mut self, names: &Slices)
        ensures { self.new ≡ with_enabled names.now self.old }
    {
        if has_word(b"qresync", names) {
            self.enables_qresync = true;
        }
    }
}

/// Whether some words have one in them, which is given in lower case.
pub fn has_word(word: &[u8], words: &Slices) -> bool
    ensures { result ≡ has_word word.now words.now }
{
    let mut rest = words.as_slice();
    while let [one, more @ ..] = rest {
        if eq_ignore_case(one, word) {
            return true;
        }
        rest = more;
    }
    false
}
