//! The answer to a form that is to be sent.
ghost use Rattle.std.specs.Prelude.{◌≡◌, IfOk, OnOk, string_bytes};
ghost use Rattle.account_sends.specs.declared.faults.SendFault.TheVariants as faults;
ghost use Rattle.account_answers.specs.Sends.{IsSafeUnsent, send_status, send_text, sent_answer, unsent_answer};

use crate::answer::{Answer, Body, fault_answer};
use account_sends::SendFault;
use form_pages::form_text;
use itoa::Buffer;
use mail_values::{Bytes, Text};
use page_writer::Memory;
use site_asks::Kind;
use std::alloc::Global;

/// Returns the answer if the form was sent, now or before: the browser goes to the folders.
pub fn sent_answer(alloc: Global) -> Result<Answer, Memory>
    ensures { IfOk result (λ answer. answer ≡ sent_answer) }
{
    Ok(Answer {
        status: 303,
        kind: Kind::To(Text::from_text(alloc, "/")?),
        body: Body::Plain(Bytes::from_vec(Vec::new(alloc))),
    })
}

/// Returns the answer to a form that is not sent, or may not be. Want of memory is handed on.
pub fn unsent_answer(alloc: Global, form: u64, fault: &SendFault) -> Result<Answer, Memory>
    ensures equals { IfOk result (λ answer. answer ≡ unsent_answer form fault.now) }
    ensures is_safe { OnOk result (IsSafeUnsent form fault.now) }
{
    let text = send_text(alloc, form, fault)?;
    fault_answer(alloc, send_status(fault), &text)
}

fn send_status(fault: &SendFault) -> u16
    ensures { result ≡ send_status fault.now }
{
    match fault {
        SendFault::NoRecipient
        | SendFault::NotAddress { .. }
        | SendFault::Long { .. }
        | SendFault::Refused { .. } => 422,
        SendFault::Damaged { .. } => 502,
        SendFault::Unreachable => 503,
        SendFault::InDoubt => 409,
        SendFault::Unkept => 500,
        SendFault::Memory => 507,
    }
}

fn send_text(alloc: Global, form: u64, fault: &SendFault) -> Result<String, Memory>
    ensures { IfOk result (λ text. string_bytes text ≡ send_text form fault.now) }
{
    match fault {
        SendFault::NoRecipient => String::from_str(alloc, "Recipients are missing."),
        SendFault::NotAddress { field, at } => address_text(alloc, field, *at),
        SendFault::Long { bytes } => long_text(alloc, *bytes),
        SendFault::Refused { code, text } => refusal_text(alloc, *code, text),
        SendFault::Damaged { at } => damage_text(alloc, *at),
        SendFault::Unreachable => String::from_str(alloc, "The server cannot be reached."),
        SendFault::InDoubt => doubt_text(alloc, form),
        SendFault::Unkept => String::from_str(alloc, "The records could not be read or written."),
        SendFault::Memory => Err(Memory),
    }
}

fn address_text(alloc: Global, field: &Text, at: usize) -> Result<String, Memory>
    ensures { IfOk result (λ text. string_bytes text ≡ send_text 0 (faults.NotAddress field.now at)) }
{
    let mut text = String::from_str(alloc, "Not an address: ")?;
    text.push_str(field.as_str())?;
    text.push_str(" at ")?;
    text.push_str(Buffer::new().format(at))?;
    text.push_str(".")?;
    Ok(text)
}

fn long_text(alloc: Global, bytes: usize) -> Result<String, Memory>
    ensures { IfOk result (λ text. string_bytes text ≡ send_text 0 (faults.Long bytes)) }
{
    let mut text = String::from_str(alloc, "The text is too long: ")?;
    text.push_str(Buffer::new().format(bytes))?;
    text.push_str(" bytes.")?;
    Ok(text)
}

fn refusal_text(alloc: Global, code: u16, reason: &Bytes) -> Result<String, Memory>
    ensures { IfOk result (λ text. string_bytes text ≡ send_text 0 (faults.Refused code reason.now)) }
{
    let mut text = String::from_str(alloc, "The post server answered ")?;
    text.push_str(Buffer::new().format(code))?;
    text.push_str(": ")?;
    text.push_str(&String::from_utf8_lossy(alloc, reason.as_slice())?)?;
    Ok(text)
}

fn damage_text(alloc: Global, at: u64) -> Result<String, Memory>
    ensures { IfOk result (λ text. string_bytes text ≡ send_text 0 (faults.Damaged at)) }
{
    let mut text = String::from_str(alloc, "The server's answer is damaged at byte ")?;
    text.push_str(Buffer::new().format(at))?;
    text.push_str(".")?;
    Ok(text)
}

fn doubt_text(alloc: Global, form: u64) -> Result<String, Memory>
    ensures { IfOk result (λ text. string_bytes text ≡ send_text form faults.InDoubt) }
{
    let mut text = String::from_str(alloc, "It is not known whether form ")?;
    text.push_str(&form_text(alloc, form)?)?;
    text.push_str(" was sent.")?;
    Ok(text)
}
