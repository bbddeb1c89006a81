//! Why a text isn't read.
ghost use Rattle.std.specs.Prelude.{◌≡◌};
ghost use Rattle.mail_addresses.specs.declared.reading.Stop.TheVariants.{Memory};

use std::alloc::{AllocError, AllocFailed};

/// Why `mailboxes` returned no boxes.
#[derive(Clone, Copy, Debug)]
pub enum AddressFault {
    /// The text is no list of boxes. `at` is the offset of the first byte after which no list can follow, or the length.
    NotAddress { at: usize },
    Memory,
}

/// Why a form wasn't read.
#[derive(Clone, Copy)]
pub enum Stop {
    /// The number of bytes that are left from the first one after which the form can't go on.
    Before { left: usize },
    Memory,
}

impl From<AllocError> for Stop {
    ghost from_gives = { λ _ e. e ≡ Memory };

    fn from(_e: AllocError) -> Stop {
        Stop::Memory
    }
}

impl<T: Drop> From<AllocFailed<T>> for Stop {
    ghost from_gives = { λ _ e. e ≡ Memory };

    fn from(_e: AllocFailed<T>) -> Stop {
        Stop::Memory
    }
}
