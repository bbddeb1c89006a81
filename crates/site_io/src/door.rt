//! The trait of what callers come in by.
ghost use Rattle.std.specs.Prelude.{◌≡◌, ℕ, List, Option, IfOk, OnOk, OnErr};
ghost use Rattle.mail_io.specs.Causes.{HasCause};
ghost use Rattle.site_io.specs.Told.{AppendsTold, CountsOne, HasOneInside, IsNewCaller, KeepsTold};

use crate::Caller;
use mail_io::Failed;

/// A door that callers come in by. When a caller was served, it leaves with a note on how.
pub trait Door {
    type C: Caller;

    type Note;

    /// The number of callers that came in so far, if the door tells it.
    ghost accepted: { Self → Option ℕ };

    /// The callers that left so far, each with its note, if the door tells them.
    ghost departed: { Self → Option (List (Self.C × Self.Note)) };

    /// The number of faults so far.
    ghost faults: { Self → ℕ };

    /// Waits for a caller. It has no faults, and has heard and sent nothing, if it tells that.
    fn accept(&mut self) -> Result<Self::C, Failed>
        ensures counts { OnOk result (CountsOne (accepted self.old) (accepted self.new)) }
        ensures unchanged_on_err { OnErr result (KeepsTold (accepted self.old) (accepted self.new)) }
        ensures keeps_departed { KeepsTold (departed self.old) (departed self.new) }
        ensures new_caller { IfOk result (λ caller. IsNewCaller (Self.C.faults caller) (Self.C.heard caller) (Self.C.sent caller)) }
        ensures cause { HasCause (faults self.old) (faults self.new) result };

    /// Takes back a caller. It waits for nobody and takes no memory.
    fn leave(&mut self, caller: Self::C, note: Self::Note)
        requires inside { HasOneInside (accepted self.old) (departed self.old) }
        ensures departs { AppendsTold (departed self.old) (departed self.new) (caller, note) }
        ensures keeps_accepted { KeepsTold (accepted self.old) (accepted self.new) }
        ensures keeps_faults { faults self.new ≡ faults self.old };
}
