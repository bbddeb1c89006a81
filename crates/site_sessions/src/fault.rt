//! Why a user can't enter.
ghost use Rattle.std.specs.Prelude.{◌≡◌};

use std::alloc::AllocError;

/// Why a user gets no session. `live` is a number of live sessions.
#[derive(Drop)]
pub enum EnterFault {
    /// Each of the 128 places has a live session.
    Full { live: u32 },
    /// The user has 8 live sessions.
    AccountFull { live: u32 },
    /// Each account has live sessions, none of them of this user. `live` counts all.
    NoSlot { live: u32 },
    Memory,
}

impl From<AllocError> for EnterFault {
    ghost use Rattle.std.specs.Prelude.{◌≡◌};
    ghost use Rattle.site_sessions.specs.declared.fault.EnterFault.TheVariants.{Memory};

    ghost from_gives = { λ error fault. fault ≡ Memory };

    fn from(_error: AllocError) -> Self {
        EnterFault::Memory
    }
}
