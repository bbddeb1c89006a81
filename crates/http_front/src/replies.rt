//! The bytes of a reply.
ghost use Rattle.std.specs.Prelude.{◌≡◌, ◌++◌, ◌∷◌, [], OnOk, IfOk, codes, decimal, filter, length};
ghost use Rattle.std.specs.Option.{option_copied};
ghost use Rattle.http.specs.StatusCode.{IsStatusCode};
ghost use Rattle.http_front.specs.Replies.{cookie_lines, has_images, image_sources, is_visible, known_phrase, line, location_lines, phrase_of, policy_line, reply_head, reply_text, status_line, type_lines, value_text};

use http::StatusCode;
use itoa::Buffer;
use mail_values::Text;
use site_asks::{Kind, Reply};
use std::alloc::{AllocError, Global};

/// Returns the bytes of a reply, as HTTP/1.1 has them (RFC 9112 §2.1).
///
/// `cookie` is the token of a session that has just begun. Addresses, media types and tokens are written without control characters, so a line
/// of the head is never ended by one.
pub fn http_text(alloc: Global, reply: &Reply, cookie: Option<&Text>) -> Result<Vec<u8>, AllocError>
    ensures { IfOk result (λ bytes. bytes.items ≡ reply_text reply.now (option_copied cookie.entry)) }
{
    let mut out = Vec::new(alloc);
    push_head(&mut out, reply, cookie)?;
    out.extend_from_slice(reply.body.as_slice())?;
    Ok(out)
}

/// Appends the head of a reply.
#[tactic(auto, unfolding(crate::specs::Replies::reply_head))]
fn push_head(out: &mut Vec<u8>, reply: &Reply, cookie: Option<&Text>) -> Result<(), AllocError>
    ensures { OnOk result (out.new.items ≡ out.old.items ++ reply_head reply.now (option_copied cookie.entry)) }
{
    push_status(out, reply.status)?;
    push_location(out, &reply.kind)?;
    push_cookie(out, cookie)?;
    push_type(out, &reply.kind)?;
    push_length(out, reply.body.as_slice().len())?;
    push_line(out, "Cache-Control: no-store")?;
    push_line(out, "X-Content-Type-Options: nosniff")?;
    push_policy(out, has_images(&reply.kind))?;
    push_line(out, "Connection: close")?;
    push_line(out, "")?;
    Ok(())
}

/// Ends a line.
fn end_line(out: &mut Vec<u8>) -> Result<(), AllocError>
    ensures { OnOk result (out.new.items ≡ out.old.items ++ codes "\r\n") }
{
    out.extend_from_slice(b"\r\n")
}

/// Appends a line.
fn push_line(out: &mut Vec<u8>, text: &str) -> Result<(), AllocError>
    ensures { OnOk result (out.new.items ≡ out.old.items ++ line text.now) }
{
    out.extend_from_slice(text.as_bytes())?;
    end_line(out)
}

/// Appends a text without its control characters.
fn push_value(out: &mut Vec<u8>, text: &str) -> Result<(), AllocError>
    ensures { OnOk result (out.new.items ≡ out.old.items ++ value_text text.now) }
{
    for byte in text.as_bytes() {
        if is_visible(*byte) {
            out.push(*byte)?;
        }
    }
    Ok(())
}

/// Whether a byte isn't a control character of ASCII.
fn is_visible(byte: u8) -> bool
    ensures { result ≡ is_visible byte }
{
    byte >= 32 && byte != 127
}

/// Appends a line with a value between two texts.
fn push_value_line(
    out: &mut Vec<u8>,
    before: &str,
    value: &str,
    after: &str,
) -> Result<(), AllocError>
    ensures { OnOk result (out.new.items ≡ out.old.items ++ line (before.now ++ value_text value.now ++ after.now)) }
{
    out.extend_from_slice(before.as_bytes())?;
    push_value(out, value)?;
    push_line(out, after)
}

/// Appends the line of a status.
fn push_status(out: &mut Vec<u8>, status: u16) -> Result<(), AllocError>
    ensures { OnOk result (out.new.items ≡ out.old.items ++ status_line status) }
{
    out.extend_from_slice(b"HTTP/1.1 ")?;
    out.extend_from_slice(Buffer::new().format(status).as_bytes())?;
    out.extend_from_slice(b" ")?;
    push_line(out, phrase_of(status))
}

/// Returns the phrase of a status, empty for a number that has none.
fn phrase_of(status: u16) -> &'static str
    ensures { result.now ≡ phrase_of status }
{
    if status >= 100 && status < 1000 {
        return known_phrase(status);
    }
    ""
}

/// Returns the phrase of a status of three digits.
#[tactic(auto, unfolding(crate::specs::Replies::known_phrase))]
fn known_phrase(status: u16) -> &'static str
    requires { IsStatusCode status }
    ensures { result.now ≡ known_phrase status }
{
    match StatusCode::from_u16(status) {
        Ok(status) => status.canonical_reason().unwrap_or(""),
        Err(_) => "",
    }
}

/// Appends the address that the browser is sent to, if there is one.
fn push_location(out: &mut Vec<u8>, kind: &Kind) -> Result<(), AllocError>
    ensures { OnOk result (out.new.items ≡ out.old.items ++ location_lines kind.now) }
{
    match kind {
        Kind::To(address) => push_value_line(out, "Location: ", address.as_str(), ""),
        _ => Ok(()),
    }
}

/// Appends the line that gives a browser its cookie, if there is one.
fn push_cookie(out: &mut Vec<u8>, cookie: Option<&Text>) -> Result<(), AllocError>
    ensures { OnOk result (out.new.items ≡ out.old.items ++ cookie_lines (option_copied cookie.entry)) }
{
    match cookie {
        Some(token) => push_value_line(
            out,
            "Set-Cookie: wm=",
            token.as_str(),
            "; HttpOnly; SameSite=Strict; Path=/",
        ),
        None => Ok(()),
    }
}

/// Appends the lines that say what the body is.
fn push_type(out: &mut Vec<u8>, kind: &Kind) -> Result<(), AllocError>
    ensures { OnOk result (out.new.items ≡ out.old.items ++ type_lines kind.now) }
{
    match kind {
        Kind::Page { .. } => push_line(out, "Content-Type: text/html; charset=utf-8"),
        Kind::Picture(media) => push_value_line(out, "Content-Type: ", media.as_str(), ""),
        Kind::Raw => push_download(out),
        Kind::To(_) => push_line(out, "Content-Type: text/html; charset=utf-8"),
        Kind::Sheet => push_line(out, "Content-Type: text/css"),
    }
}

/// Appends the lines of a body that a browser saves.
fn push_download(out: &mut Vec<u8>) -> Result<(), AllocError>
    ensures { OnOk result (out.new.items ≡ out.old.items ++ (line (codes "Content-Type: application/octet-stream") ++ line (codes "Content-Disposition: attachment"))) }
{
    push_line(out, "Content-Type: application/octet-stream")?;
    push_line(out, "Content-Disposition: attachment")
}

/// Appends the length of the body.
fn push_length(out: &mut Vec<u8>, len: usize) -> Result<(), AllocError>
    ensures { OnOk result (out.new.items ≡ out.old.items ++ line (codes "Content-Length: " ++ decimal len)) }
{
    out.extend_from_slice(b"Content-Length: ")?;
    push_line(out, Buffer::new().format(len))
}

/// Whether a reply may load remote images.
fn has_images(kind: &Kind) -> bool
    ensures { result ≡ has_images kind.now }
{
    match kind {
        Kind::Page { images } => *images,
        _ => false,
    }
}

/// Returns the sources of remote images, if they were asked for.
fn image_sources(images: bool) -> &'static str
    ensures { result.now ≡ image_sources images }
{
    if images { " http: https:" } else { "" }
}

/// Appends what a browser may load for the page.
fn push_policy(out: &mut Vec<u8>, images: bool) -> Result<(), AllocError>
    ensures { OnOk result (out.new.items ≡ out.old.items ++ policy_line images) }
{
    out.extend_from_slice(
        b"Content-Security-Policy: default-src 'none'; style-src 'self' 'unsafe-inline'; img-src 'self'",
    )?;
    push_line(out, image_sources(images))?;
    Ok(())
}
