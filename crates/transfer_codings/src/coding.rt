//! Bytes under a Content-Transfer-Encoding.

ghost use Rattle.std.specs.Prelude.{◌≡◌, IfOk};
ghost use Rattle.transfer_codings.specs.Codings.{decoded};

use crate::{base64_text, quoted_text};
use std::alloc::{AllocError as Memory, Global};

/// How the bytes of a part are written in the message.
#[derive(Clone, Copy, Debug, PartialEq, Eq)]
pub enum Coding {
    /// As they are: `7bit`, `8bit` and `binary`.
    Plain,
    /// `base64`.
    Base64,
    /// `quoted-printable`.
    Quoted,
}

/// Decodes bytes. Every input has a reading, since RFC 2045 §6.7 and §6.8 leave malformed text to the reader, so only memory can
/// fail.
pub fn decode(alloc: Global, coding: Coding, bytes: &[u8]) -> Result<Vec<u8>, Memory>
    ensures { IfOk result (λ read. read.items ≡ decoded coding bytes.now) }
{
    match coding {
        Coding::Plain => Vec::from_slice(alloc, bytes),
        Coding::Base64 => base64_text::decode(alloc, bytes),
        Coding::Quoted => quoted_text::decode(alloc, bytes),
    }
}
