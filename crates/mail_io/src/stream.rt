//! Loops over sources and sinks.
ghost use Rattle.std.specs.Prelude.{◌≡◌, ◌<◌, ◌^◌, IfOk, OnOk, IsErrOf, OnErr};
ghost use Rattle.std.specs.Io.KnownBytes.{Appends};
ghost use Rattle.mail_io.specs.Causes.{Rose, HasCause};
ghost use Rattle.mail_io.specs.Stream.{ReadsWhole, ReadsPast, ReadsSome, WritesSome};

use crate::{Failed, Sink, Source};
use std::alloc::{AllocError, Global};

/// The reason that a source was not read to its end.
#[derive(Clone, Copy, Debug, PartialEq, Eq)]
pub enum InputFault {
    /// The source's fault count rose.
    Failed,
    /// The source has more bytes than the limit.
    Long,
    Memory,
}

impl From<AllocError> for InputFault {
    ghost use Rattle.std.specs.Prelude.{◌≡◌};
    ghost use Rattle.mail_io.specs.declared.stream.InputFault.TheVariants.{Memory};

    ghost from_gives = { λ _ e. e ≡ Memory };

    fn from(_: AllocError) -> Self {
        InputFault::Memory
    }
}

impl From<Failed> for InputFault {
    ghost use Rattle.std.specs.Prelude.{◌≡◌};
    ghost use Rattle.mail_io.specs.declared.stream.InputFault.TheVariants.{Failed};

    ghost from_gives = { λ _ e. e ≡ Failed };

    fn from(_: Failed) -> Self {
        InputFault::Failed
    }
}

/// The greatest number of bytes that are asked for at once.
const CHUNK: usize = 65_536;

/// Reads a source to its end, and at most `limit` bytes and one more.
pub fn read_to_end<R: Source>(
    alloc: Global,
    source: &mut R,
    limit: usize,
) -> Result<Vec<u8>, InputFault>
    requires { limit < 2 ^ 32 }
    ensures whole { IfOk result (λ bytes. ReadsWhole limit (R.left source.old) (R.left source.new) bytes.items) }
    ensures failed { IsErrOf result InputFault.Failed → Rose (R.faults source.old) (R.faults source.new) }
    ensures failed_after { IsErrOf result InputFault.Failed → ReadsSome limit (R.left source.old) (R.left source.new) }
    ensures long { IsErrOf result InputFault.Long → ReadsPast limit (R.left source.old) (R.left source.new) }
    ensures keeps_faults { (IsErrOf result InputFault.Failed → ⊥) → R.faults source.new ≡ R.faults source.old }
{
    let mut bytes = Vec::new(alloc);
    let mut chunk = [0u8; CHUNK];
    while bytes.len() <= limit {
        let room = CHUNK.min(limit - bytes.len() + 1);
        let count = source.read(&mut chunk[..room])?;
        if count == 0 {
            return Ok(bytes);
        }
        bytes.extend_from_slice(&chunk[..count])?;
    }
    Err(InputFault::Long)
}

/// Writes all of `bytes`. At a fault a proper prefix of them was written.
pub fn write_whole<W: Sink>(sink: &mut W, bytes: &[u8]) -> Result<(), Failed>
    ensures whole { OnOk result (Appends (W.taken sink.old) (W.taken sink.new) bytes.now) }
    ensures prefix { OnErr result (WritesSome (W.taken sink.old) (W.taken sink.new) bytes.now) }
    ensures cause { HasCause (W.faults sink.old) (W.faults sink.new) result }
{
    let mut at = 0;
    while at < bytes.len() {
        at += sink.write(&bytes[at..])?;
    }
    Ok(())
}
