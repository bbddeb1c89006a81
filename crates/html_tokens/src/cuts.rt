//! Search for a byte.
ghost use Rattle.std.specs.Prelude.{◌<◌, take, drop, IsCharBoundary};
ghost use Rattle.html_tokens.specs.Cuts.{LacksByte, BeginsWithByte};

use memchr::memchr;

/// The offset of the first occurrence of an ASCII byte, or the text's length.
pub fn skip_to_byte(byte: u8, rest: &str) -> usize
    requires { byte < 128 }
    ensures boundary { IsCharBoundary rest.now result }
    ensures lacks { LacksByte byte (take result rest.now) }
    ensures begins { BeginsWithByte byte (drop result rest.now) }
{
    memchr(byte, rest.as_bytes()).unwrap_or(rest.len())
}
