//! The trait of a connection to a server, which can be made anew.
ghost use Rattle.std.specs.Prelude.{ℕ, ◌<◌, ◌≤◌, List, length, take, Option, IfOk, OnOk, OnErr};
ghost use Rattle.account_pictures.specs.declared.talk.Piece.{Piece};
ghost use Rattle.mail_io.specs.Causes.{HasCause};
ghost use Rattle.mail_io.specs.Talks.{AppendsPiece, KeepsTalk, SaysPrefix};

use crate::Failed;

/// A connection to a server. What was said and heard on it is its talk, which may be told or not.
pub trait Link {
    /// The talk so far, if the link tells it. A link tells it always or never.
    ghost talk: { Self → Option (List Piece) };

    /// The number of faults so far.
    ghost faults: { Self → ℕ };

    /// Ends the connection, if there is one, and makes a new one. `fresh` is recorded in the talk and changes nothing else.
    fn redial(&mut self, fresh: bool) -> Result<(), Failed>
        ensures dials { OnOk result (AppendsPiece (talk self.old) (talk self.new) (Piece.Dialled fresh)) }
        ensures unchanged_on_err { OnErr result (KeepsTalk (talk self.old) (talk self.new)) }
        ensures cause { HasCause (faults self.old) (faults self.new) result };

    /// Sends all of `bytes`. A call that fails has sent a proper prefix of them.
    fn send(&mut self, bytes: &[u8]) -> Result<(), Failed>
        requires nonempty { 0 < length bytes.now }
        ensures says { OnOk result (AppendsPiece (talk self.old) (talk self.new) (Piece.Said bytes.now)) }
        ensures says_prefix { OnErr result (SaysPrefix (talk self.old) (talk self.new) bytes.now) }
        ensures cause { HasCause (faults self.old) (faults self.new) result };

    /// Waits for bytes, moves the first of them into `room` and returns their number. The end of the stream is a fault.
    fn receive(&mut self, room: &mut [u8]) -> Result<usize, Failed>
        requires nonempty { 0 < length room.old }
        ensures progresses { IfOk result (λ n. 0 < n) }
        ensures bound { IfOk result (λ n. n ≤ length room.new) }
        ensures hears { IfOk result (λ n. AppendsPiece (talk self.old) (talk self.new) (Piece.Heard (take n room.new))) }
        ensures unchanged_on_err { OnErr result (KeepsTalk (talk self.old) (talk self.new)) }
        ensures cause { HasCause (faults self.old) (faults self.new) result };
}
