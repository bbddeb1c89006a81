//! The lines of a message, as they are sent.
ghost use Rattle.std.specs.Prelude.{◌≡◌, ◌++◌, ◌∷◌, ◌==◌, ◌&&◌, [], IfOk, OnOk, if◌then◌else◌};
ghost use Rattle.submission.specs.Script.{dotted};

use std::alloc::{AllocError, Global};

/// Appends a byte, twice if it is a `.` that begins a line.
fn push_byte(out: &mut Vec<u8>, byte: u8, begins_line: bool) -> Result<(), AllocError>
    ensures { OnOk result (out.new.items ≡ out.old.items ++ (if begins_line && byte == 46 then 46 ∷ byte ∷ [] else byte ∷ [])) }
{
    if begins_line && byte == b'.' {
        out.push(b'.')?;
    }
    out.push(byte)?;
    Ok(())
}

/// Returns a message with each line's leading `.` doubled (RFC 5321 §4.5.2).
#[tactic(auto, unfolding(crate::specs::Script::dotted))]
pub fn dotted(alloc: Global, message: &[u8]) -> Result<Vec<u8>, AllocError>
    ensures { IfOk result (λ out. out.items ≡ dotted message.now) }
{
    let mut out = Vec::with_capacity(alloc, message.len())?;
    let mut begins_line = true;
    for &byte in message {
        push_byte(&mut out, byte, begins_line)?;
        begins_line = byte == b'\n';
    }
    Ok(out)
}
