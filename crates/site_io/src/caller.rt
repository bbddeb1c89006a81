//! The trait of a connection that a browser made.
ghost use Rattle.std.specs.Prelude.{ℕ, ◌<◌, ◌≤◌, List, length, take, Option, IfOk, OnOk, OnErr};
ghost use Rattle.std.specs.Io.KnownBytes.{Appends, Keeps};
ghost use Rattle.mail_io.specs.Causes.{HasCause};
ghost use Rattle.site_io.specs.Told.{AppendsPrefix};

use mail_io::Failed;

/// A connection to a browser, over which one request comes in and one reply goes out.
pub trait Caller {
    /// The bytes received so far, if the caller tells them.
    ghost heard: { Self → Option (List ℕ) };

    /// The bytes sent so far, if the caller tells them.
    ghost sent: { Self → Option (List ℕ) };

    /// The number of faults so far.
    ghost faults: { Self → ℕ };

    /// Waits for bytes, moves the first of them into `room` and returns their number. The end of the stream is a fault.
    fn receive(&mut self, room: &mut [u8]) -> Result<usize, Failed>
        requires nonempty { 0 < length room.old }
        ensures progresses { IfOk result (λ n. 0 < n) }
        ensures bound { IfOk result (λ n. n ≤ length room.new) }
        ensures hears { IfOk result (λ n. Appends (heard self.old) (heard self.new) (take n room.new)) }
        ensures unchanged_on_err { OnErr result (Keeps (heard self.old) (heard self.new)) }
        ensures keeps_sent { Keeps (sent self.old) (sent self.new) }
        ensures cause { HasCause (faults self.old) (faults self.new) result };

    /// Sends all of `bytes`. A call that fails has sent a prefix of them.
    fn send(&mut self, bytes: &[u8]) -> Result<(), Failed>
        ensures sends { OnOk result (Appends (sent self.old) (sent self.new) bytes.now) }
        ensures sends_prefix { OnErr result (AppendsPrefix (sent self.old) (sent self.new) bytes.now) }
        ensures keeps_heard { Keeps (heard self.old) (heard self.new) }
        ensures cause { HasCause (faults self.old) (faults self.new) result };
}
