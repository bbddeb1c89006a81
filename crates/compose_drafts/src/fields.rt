//! The fields of a message's header.
ghost use Rattle.std.specs.Prelude.{◌≡◌, ◌++◌, ◌∷◌, [], ◌<◌, OnOk, codes};
ghost use Rattle.std.specs.List.{flat_map};
ghost use Rattle.compose_drafts.specs.Message.{header, hex_digit, hex_digits, ids_or_none, ids_text, optional, own_id};
ghost use Rattle.compose_drafts.specs.Moments.{date_text};
ghost use Rattle.compose_drafts.specs.Paragraphs.{coding_name};
ghost use Rattle.compose_drafts.specs.References.{last_of_ids, references_of};
ghost use Rattle.compose_drafts.specs.Texts.{ended, written};

use crate::dates::push_date;
use crate::parties::Parties;
use crate::references::{last_of_ids, push_ids, writable_ids};
use crate::words::push_written;
use jiff_core::civil::DateTime;
use mail_values::{Bytes, Text};
use site_asks::Draft;
use std::alloc::{AllocError, Global};

/// Ends a line.
fn end_line(out: &mut Vec<u8>) -> Result<(), AllocError>
    ensures { OnOk result (out.new.items ≡ out.old.items ++ 13 ∷ 10 ∷ []) }
{
    out.extend_from_slice(b"\r\n")
}

/// Appends a line.
fn push_line(out: &mut Vec<u8>, line: &str) -> Result<(), AllocError>
    ensures { OnOk result (out.new.items ≡ out.old.items ++ ended line.now) }
{
    out.extend_from_slice(line.as_bytes())?;
    end_line(out)
}

/// Appends a field.
fn push_field(out: &mut Vec<u8>, name: &str, value: &[u8]) -> Result<(), AllocError>
    ensures { OnOk result (out.new.items ≡ out.old.items ++ ended (name.now ++ value.now)) }
{
    out.extend_from_slice(name.as_bytes())?;
    out.extend_from_slice(value)?;
    end_line(out)
}

/// Appends a field that may be left out.
fn push_optional(out: &mut Vec<u8>, name: &str, value: &Option<Bytes>) -> Result<(), AllocError>
    ensures { OnOk result (out.new.items ≡ out.old.items ++ flat_map ended (optional name.now value.now)) }
{
    match value {
        Some(value) => push_field(out, name, value.as_slice()),
        None => Ok(()),
    }
}

/// Appends the date.
fn push_date_field(out: &mut Vec<u8>, clock: DateTime) -> Result<(), AllocError>
    ensures { OnOk result (out.new.items ≡ out.old.items ++ ended (codes "Date: " ++ date_text clock)) }
{
    out.extend_from_slice(b"Date: ")?;
    push_date(out, clock)?;
    end_line(out)
}

/// Appends the sender and the recipients.
fn push_parties(out: &mut Vec<u8>, parties: &Parties) -> Result<(), AllocError>
    ensures { OnOk result (out.new.items ≡ out.old.items ++ flat_map ended (optional (codes "From: ") parties.now.from) ++ flat_map ended (optional (codes "To: ") parties.now.to) ++ flat_map ended (optional (codes "Cc: ") parties.now.cc)) }
{
    push_optional(out, "From: ", &parties.from)?;
    push_optional(out, "To: ", &parties.to)?;
    push_optional(out, "Cc: ", &parties.cc)
}

/// Appends the subject.
fn push_subject(alloc: Global, out: &mut Vec<u8>, subject: &Text) -> Result<(), AllocError>
    ensures { OnOk result (out.new.items ≡ out.old.items ++ ended (codes "Subject: " ++ written subject.now)) }
{
    out.extend_from_slice(b"Subject: ")?;
    push_written(alloc, out, subject.as_str().as_bytes())?;
    end_line(out)
}

/// Appends a field of identifiers, which is left out if there are none.
fn push_ids_field(out: &mut Vec<u8>, name: &str, ids: &[Bytes]) -> Result<(), AllocError>
    ensures { OnOk result (out.new.items ≡ out.old.items ++ flat_map ended (optional name.now (ids_or_none ids.now))) }
{
    if ids.is_empty() {
        return Ok(());
    }
    out.extend_from_slice(name.as_bytes())?;
    push_ids(out, ids)?;
    end_line(out)
}

/// Appends what the message answers.
#[tactic(auto, unfolding(crate::specs::References::references_of))]
fn push_answered(alloc: Global, out: &mut Vec<u8>, refs: &Text) -> Result<(), AllocError>
    ensures { OnOk result (out.new.items ≡ out.old.items ++ flat_map ended (optional (codes "In-Reply-To: ") (ids_or_none (last_of_ids 1 (references_of refs.now)))) ++ flat_map ended (optional (codes "References: ") (ids_or_none (references_of refs.now)))) }
{
    let ids = writable_ids(alloc, refs.as_str().as_bytes())?;
    let last = last_of_ids(20, &ids);
    push_ids_field(out, "In-Reply-To: ", last_of_ids(1, last))?;
    push_ids_field(out, "References: ", last)
}

fn hex_digit(value: u8) -> u8
    requires { value < 16 }
    ensures { result ≡ hex_digit value }
{
    if value < 10 {
        b'0' + value
    } else {
        b'a' - 10 + value
    }
}

/// Appends a number in 16 hexadecimal digits.
fn push_hex(out: &mut Vec<u8>, number: u64) -> Result<(), AllocError>
    ensures { OnOk result (out.new.items ≡ out.old.items ++ hex_digits 16 number) }
{
    for place in 0u64..16 {
        let value = (number >> (60 - 4 * place)) % 16;
        out.push(hex_digit(value as u8))?;
    }
    Ok(())
}

/// Appends the message's own identifier.
fn push_own_id(out: &mut Vec<u8>, form: u64, domain: &Bytes) -> Result<(), AllocError>
    ensures { OnOk result (out.new.items ≡ out.old.items ++ own_id form domain.now) }
{
    out.extend_from_slice(b"<")?;
    push_hex(out, form)?;
    out.extend_from_slice(b"@")?;
    out.extend_from_slice(domain.as_slice())?;
    out.extend_from_slice(b">")?;
    Ok(())
}

/// Appends the field of the message's own identifier.
fn push_id_field(out: &mut Vec<u8>, form: u64, domain: &Bytes) -> Result<(), AllocError>
    ensures { OnOk result (out.new.items ≡ out.old.items ++ ended (codes "Message-ID: " ++ own_id form domain.now)) }
{
    out.extend_from_slice(b"Message-ID: ")?;
    push_own_id(out, form, domain)?;
    end_line(out)?;
    Ok(())
}

fn coding_name(seven_bit: bool) -> &'static [u8]
    ensures { result.now ≡ coding_name seven_bit }
{
    if seven_bit {
        b"7bit"
    } else {
        b"quoted-printable"
    }
}

/// Appends what the body is.
fn push_content(out: &mut Vec<u8>, seven_bit: bool) -> Result<(), AllocError>
    ensures { OnOk result (out.new.items ≡ out.old.items ++ ended (codes "MIME-Version: 1.0") ++ ended (codes "Content-Type: text/plain; charset=utf-8; format=flowed") ++ ended (codes "Content-Transfer-Encoding: " ++ coding_name seven_bit)) }
{
    push_line(out, "MIME-Version: 1.0")?;
    push_line(
        out,
        "Content-Type: text/plain; charset=utf-8; format=flowed",
    )?;
    push_field(out, "Content-Transfer-Encoding: ", coding_name(seven_bit))
}

/// Appends the header of a draft's message.
#[tactic(auto, unfolding(crate::specs::Message::header))]
pub fn push_header(
    alloc: Global,
    out: &mut Vec<u8>,
    draft: &Draft,
    parties: &Parties,
    clock: DateTime,
    seven_bit: bool,
) -> Result<(), AllocError>
    ensures { OnOk result (out.new.items ≡ out.old.items ++ flat_map ended (header draft.now parties.now clock seven_bit)) }
{
    push_date_field(out, clock)?;
    push_parties(out, parties)?;
    push_subject(alloc, out, &draft.subject)?;
    push_answered(alloc, out, &draft.refs)?;
    push_id_field(out, draft.form, &parties.domain)?;
    push_content(out, seven_bit)?;
    Ok(())
}
