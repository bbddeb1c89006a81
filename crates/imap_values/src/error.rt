//! Why a parser returned nothing.

ghost use Rattle.std.specs.Prelude.{◌≡◌};
ghost use Rattle.imap_values.specs.declared.error.ParseError.TheVariants.{Memory};

use std::alloc::{AllocError, AllocFailed};

/// Why a parser failed.
#[derive(Clone, Copy)]
pub enum ParseError {
    /// The bytes do not begin with what the grammar asks for.
    NotInGrammar,
    Memory,
}

impl From<AllocError> for ParseError {
    ghost from_gives = { λ _ e. e ≡ Memory };

    fn from(_e: AllocError) -> ParseError {
        ParseError::Memory
    }
}

impl<T: Drop> From<AllocFailed<T>> for ParseError {
    ghost from_gives = { λ _ e. e ≡ Memory };

    fn from(_e: AllocFailed<T>) -> ParseError {
        ParseError::Memory
    }
}
