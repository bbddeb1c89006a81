//! Why a login failed.
use account_script::Cause;
use mail_values::Memory;

/// Why a login failed.
#[derive(Drop)]
pub enum LoginFault {
    /// What the mail server said, or lacks.
    Stopped(Cause),
    /// The link to the mail server failed.
    Unreachable,
    /// The keeper failed.
    Unkept,
    Memory,
}

impl From<Memory> for LoginFault {
    ghost use Rattle.std.specs.Prelude.{◌≡◌};
    ghost use Rattle.account_core.specs.declared.faults.LoginFault.TheVariants.{Memory};

    ghost from_gives = { λ _ e. e ≡ Memory };

    fn from(_: Memory) -> Self {
        LoginFault::Memory
    }
}
