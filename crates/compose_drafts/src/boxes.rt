//! Boxes in the fields of a header.
ghost use Rattle.std.specs.Prelude.{◌≡◌, ◌++◌, OnOk};
ghost use Rattle.std.specs.List.{flat_map};
ghost use Rattle.compose_drafts.specs.Texts.{box_text, boxes_text, escaped, in_angles, next_box, phrase, quoted};

use crate::words::{is_plain, push_encoded_words};
use mail_addresses::Mailbox;
use std::alloc::{AllocError, Global};

fn push_escaped(out: &mut Vec<u8>, byte: u8) -> Result<(), AllocError>
    ensures { OnOk result (out.new.items ≡ out.old.items ++ escaped byte) }
{
    if byte == b'"' || byte == b'\\' {
        return out.extend_from_slice(&[b'\\', byte]);
    }
    out.extend_from_slice(&[byte])
}

/// Appends a text with a `\` before each quote and `\`.
fn push_all_escaped(out: &mut Vec<u8>, text: &[u8]) -> Result<(), AllocError>
    ensures { OnOk result (out.new.items ≡ out.old.items ++ flat_map escaped text.now) }
{
    for byte in text {
        push_escaped(out, *byte)?;
    }
    Ok(())
}

/// Appends a quoted string.
fn push_quoted(out: &mut Vec<u8>, text: &[u8]) -> Result<(), AllocError>
    ensures { OnOk result (out.new.items ≡ out.old.items ++ quoted text.now) }
{
    out.extend_from_slice(b"\"")?;
    push_all_escaped(out, text)?;
    out.extend_from_slice(b"\"")
}

/// Appends a text between `<` and `>`.
pub fn push_in_angles(out: &mut Vec<u8>, text: &[u8]) -> Result<(), AllocError>
    ensures { OnOk result (out.new.items ≡ out.old.items ++ in_angles text.now) }
{
    out.extend_from_slice(b"<")?;
    out.extend_from_slice(text)?;
    out.extend_from_slice(b">")
}

/// Appends a name.
fn push_phrase(alloc: Global, out: &mut Vec<u8>, name: &[u8]) -> Result<(), AllocError>
    ensures { OnOk result (out.new.items ≡ out.old.items ++ phrase name.now) }
{
    if is_plain(name) {
        return push_quoted(out, name);
    }
    push_encoded_words(alloc, out, name)
}

/// Appends a box: an address, after its name if that isn't empty.
#[tactic(auto, unfolding(crate::specs::Texts::box_text))]
pub fn push_box(
    alloc: Global,
    out: &mut Vec<u8>,
    name: &[u8],
    address: &[u8],
) -> Result<(), AllocError>
    ensures { OnOk result (out.new.items ≡ out.old.items ++ box_text name.now address.now) }
{
    if name.is_empty() {
        return out.extend_from_slice(address);
    }
    push_phrase(alloc, out, name)?;
    out.extend_from_slice(b" ")?;
    push_in_angles(out, address)
}

/// Appends boxes that come after another one.
fn push_more_boxes(alloc: Global, out: &mut Vec<u8>, boxes: &[Mailbox]) -> Result<(), AllocError>
    ensures { OnOk result (out.new.items ≡ out.old.items ++ flat_map next_box boxes.now) }
{
    for one in boxes {
        out.extend_from_slice(b",\r\n ")?;
        push_box(
            alloc,
            out,
            one.name.as_str().as_bytes(),
            one.address.as_str().as_bytes(),
        )?;
    }
    Ok(())
}

/// Appends the boxes of a field, each but the first on a line of its own.
#[tactic(auto, unfolding(crate::specs::Texts::boxes_text))]
pub fn push_boxes(alloc: Global, out: &mut Vec<u8>, boxes: &[Mailbox]) -> Result<(), AllocError>
    ensures { OnOk result (out.new.items ≡ out.old.items ++ boxes_text boxes.now) }
{
    let [first, more @ ..] = boxes else {
        return Ok(());
    };
    push_box(
        alloc,
        out,
        first.name.as_str().as_bytes(),
        first.address.as_str().as_bytes(),
    )?;
    push_more_boxes(alloc, out, more)
}
