//! Lists of borrowed words.

ghost use Rattle.std.specs.Prelude.{◌≡◌};
ghost use Rattle.imap_values.specs.Slices.{slices_of};

use std::marker::Model;

/// Words that borrow from the unit. Contracts see the list of their bytes.
#[derive(Drop)]
pub struct Slices<'a> {
    slices: Vec<&'a [u8]>,
}

impl<'a> Model for Slices<'a> {
    ghost use Rattle.std.specs.Prelude.{List, ℕ};
    ghost use Rattle.imap_values.specs.Slices.{slices_of};

    ghost Value = { List (List ℕ) };

    ghost view = { λ s. slices_of s.slices.items };
}

impl<'a> Slices<'a> {
    pub fn from_vec(slices: Vec<&'a [u8]>) -> Self
        ensures { result ≡ slices_of slices.entry.items }
    {
        Slices { slices }
    }

    pub fn as_slice(&self) -> &[&'a [u8]]
        ensures { slices_of result.now ≡ self.now }
    {
        &self.slices
    }
}
