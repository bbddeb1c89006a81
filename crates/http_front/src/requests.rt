//! Reads the request of a caller.
ghost use Rattle.std.specs.Prelude.{◌≡◌, ◌<◌, ◌≤◌, IfOk, codes, length};
ghost use Rattle.std.specs.Io.KnownBytes.{Keeps};
ghost use Rattle.std.specs.Option.{option_copied};
ghost use Rattle.http_heads.specs.Framing.{values_of};
ghost use Rattle.http_heads.specs.Heads.{field_seen, fields_seen};
ghost use Rattle.http_routes.specs.Cookies.{cookie_of};
ghost use Rattle.http_routes.specs.Servable.{IsServable};
ghost use Rattle.http_front.specs.Answering.{AnswersRest, field_cookie, first_cookies, parts_answer};
ghost use Rattle.http_front.specs.Receiving.{IsCaused};
ghost use Rattle.http_front.specs.Requests.{AnswersHeard, AsksAs};

use crate::AskFault;
use crate::faults::{head_fault, route_fault};
use crate::receiving::{receive_body, receive_head};
use http_heads::{Head, HeadField, body_len, parts_of};
use http_routes::{ask_of, cookie_in};
use mail_values::Text;
use site_asks::Ask;
use site_io::Caller;
use std::alloc::{AllocError, Global};

/// Returns the ask of a caller's request, and its cookie `wm`.
///
/// `form` is the number of the form of a new draft. The faults are tried in the order of `AskFault`, but a field of the route is the last of all.
/// The head is received until it is whole, then as many bytes as its Content-Length tells; what was received after them is not looked at.
pub fn read_ask<C: Caller>(
    alloc: Global,
    caller: &mut C,
    form: u64,
) -> Result<(Ask, Option<Text>), AskFault>
    ensures answers { AnswersHeard (C.heard caller.old) (C.heard caller.new) form result }
    ensures servable { IfOk result (λ asked. IsServable asked.0) }
    ensures keeps_sent { Keeps (C.sent caller.old) (C.sent caller.new) }
    ensures cause { IsCaused (C.faults caller.old) (C.faults caller.new) result }
{
    let mut spans = Vec::new(alloc);
    let mut room = [0u8; 4096];
    let mut bytes = Vec::new(alloc);
    let head = receive_head(alloc, caller, &mut bytes, &mut spans, &mut room)?;
    let parts = parts_of(alloc, &bytes, &head, &spans)?;
    answer(alloc, caller, &bytes, &parts, form, &mut room)
}

/// Receives the body of a head, and returns the ask. `bytes` begin with the head.
fn answer<C: Caller>(
    alloc: Global,
    caller: &mut C,
    bytes: &[u8],
    head: &Head<'_>,
    form: u64,
    room: &mut [u8],
) -> Result<(Ask, Option<Text>), AskFault>
    requires within { head.now.len ≤ length bytes.now }
    requires room { 0 < length room.old }
    ensures answers { AnswersRest (C.heard caller.old) (C.heard caller.new) bytes.now head.now form result }
    ensures servable { IfOk result (λ asked. IsServable asked.0) }
    ensures keeps_sent { Keeps (C.sent caller.old) (C.sent caller.new) }
    ensures cause { IsCaused (C.faults caller.old) (C.faults caller.new) result }
{
    let len = match body_len(&head.fields) {
        Ok(len) => len as usize,
        Err(fault) => return Err(head_fault(alloc, fault)),
    };
    let mut body = Vec::from_slice(alloc, &bytes[head.len..])?;
    receive_body(caller, &mut body, len, room)?;
    let asked = whole_ask(alloc, head, &body[..len], form)?;
    Ok(asked)
}

/// Returns the ask of a whole request, and its cookie.
fn whole_ask(
    alloc: Global,
    head: &Head<'_>,
    body: &[u8],
    form: u64,
) -> Result<(Ask, Option<Text>), AskFault>
    ensures equals { AsksAs result (parts_answer head.now body.now form) }
    ensures servable { IfOk result (λ asked. IsServable asked.0) }
{
    let ask = match ask_of(alloc, head.method, head.target, body, form) {
        Ok(ask) => ask,
        Err(fault) => return Err(route_fault(fault)),
    };
    let cookie = cookie_of(alloc, &head.fields)?;
    Ok((ask, cookie))
}

/// Returns the cookie that a field has, if it is a Cookie field.
fn field_cookie<'b>(field: &HeadField<'b>) -> Option<&'b [u8]>
    ensures { option_copied result ≡ field_cookie (field_seen field.now) }
{
    if field.name.eq_ignore_ascii_case(b"Cookie") {
        cookie_in(field.value)
    } else {
        None
    }
}

/// Returns the first cookie that fields have.
fn first_cookie<'b>(fields: &[HeadField<'b>]) -> Option<&'b [u8]>
    ensures { option_copied result ≡ first_cookies (fields_seen fields.now) }
{
    let mut rest = fields;
    while let [field, more @ ..] = rest {
        if let Some(cookie) = field_cookie(field) {
            return Some(cookie);
        }
        rest = more;
    }
    None
}

/// Returns the cookie that fields have, as a text.
#[tactic(auto, using(crate::proofs::CookieFields::first_all))]
fn cookie_of(alloc: Global, fields: &[HeadField<'_>]) -> Result<Option<Text>, AllocError>
    ensures { IfOk result (λ cookie. cookie ≡ cookie_of (values_of (codes "Cookie") (fields_seen fields.now))) }
{
    let Some(value) = first_cookie(fields) else {
        return Ok(None);
    };
    Ok(Some(Text::from_string(String::from_utf8_lossy(alloc, value)?)))
}
