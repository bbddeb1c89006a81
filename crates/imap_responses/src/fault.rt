//! Why no response was read.
ghost use Rattle.std.specs.Prelude.{◌≡◌};
ghost use Rattle.imap_responses.specs.declared.fault.ReadFault.TheVariants.{Damaged, Memory};

use imap_framing::TooLong;
use std::alloc::{AllocError, AllocFailed};

/// Why a reader returned no response.
#[derive(Clone, Copy, Debug, PartialEq)]
pub enum ReadFault {
    /// The unit at that offset in the connection's bytes is no response, or has a literal that is too long.
    Damaged { at: u64 },
    Memory,
}

impl From<TooLong> for ReadFault {
    ghost from_gives = { λ fault made. made ≡ Damaged fault.at };

    fn from(fault: TooLong) -> ReadFault {
        ReadFault::Damaged { at: fault.at }
    }
}

impl From<AllocError> for ReadFault {
    ghost from_gives = { λ _ made. made ≡ Memory };

    fn from(_: AllocError) -> ReadFault {
        ReadFault::Memory
    }
}

impl<T: Drop> From<AllocFailed<T>> for ReadFault {
    ghost from_gives = { λ _ made. made ≡ Memory };

    fn from(_: AllocFailed<T>) -> ReadFault {
        ReadFault::Memory
    }
}
