//! The traits of sources and sinks of bytes.
ghost use Rattle.std.specs.Prelude.{◌<◌, List, ℕ, length, Option, IfOk};
ghost use Rattle.std.specs.Io.{ReadsAtMost, WritesAtMost};
ghost use Rattle.std.specs.Io.KnownBytes.{ReadConsumes, WriteAppends};
ghost use Rattle.mail_io.specs.Causes.{HasCause};

/// A fault of input or output. A call returns it only if the fault count of its object rose in that call.
#[derive(Clone, Copy, Debug, PartialEq, Eq)]
pub struct Failed;

/// An object that bytes are read from.
pub trait Source {
    /// The bytes that are left, if the source tells them.
    ghost left: { Self → Option (List ℕ) };

    /// The number of faults so far.
    ghost faults: { Self → ℕ };

    /// Moves the first bytes that are left into `room`, and returns their number. It is 0 for a nonempty room if and only if
    /// none are left. A call that fails takes no byte.
    fn read(&mut self, room: &mut [u8]) -> Result<usize, Failed>
        ensures bound { ReadsAtMost result room.new }
        ensures consumes { ReadConsumes (left self.old) (left self.new) result room.new }
        ensures cause { HasCause (faults self.old) (faults self.new) result };
}

/// An object that bytes are written to.
pub trait Sink {
    /// The bytes taken so far, if the sink tells them.
    ghost taken: { Self → Option (List ℕ) };

    /// The number of faults so far.
    ghost faults: { Self → ℕ };

    /// Takes the first bytes of `piece`, and returns their number: at least one of a nonempty piece. A call that fails takes no
    /// byte.
    fn write(&mut self, piece: &[u8]) -> Result<usize, Failed>
        ensures bound { WritesAtMost result piece.now }
        ensures progresses { IfOk result (λ n. 0 < length piece.now → 0 < n) }
        ensures appends { WriteAppends (taken self.old) (taken self.new) result piece.now }
        ensures cause { HasCause (faults self.old) (faults self.new) result };
}
