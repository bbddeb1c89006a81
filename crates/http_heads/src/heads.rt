//! Heads of requests.
ghost use Rattle.std.specs.Prelude.{◌≡◌, ◌≤◌, All, IfOk, length, map};
ghost use Rattle.std.specs.Str.{IsUtf8};
ghost use Rattle.httparse.specs.Grammar.{RequestHead};
ghost use Rattle.httparse.specs.Spans.{IsHeaderWithin, IsRequestOf, IsRequestWithin, header_bytes};
ghost use Rattle.http_heads.specs.Heads.{HearsAs, IsHeadOf, ScansAs, fields_seen, line_feeds};
ghost use Rattle.http_heads.specs.Places.{place_of};

use crate::Place;
use httparse::Status;
use httparse::spans::{EMPTY_HEADER_SPAN, HeaderSpan, RequestSpans, parse_request};
use std::alloc::{AllocError, Global};

/// What the bytes of a request's head are so far.
#[derive(Clone, Copy)]
pub enum Heard {
    /// They begin with a whole head.
    Finished(RequestSpans),
    /// No head yet, and one may come.
    More,
    /// No bytes can make it a head.
    NotHttp,
}

/// A field of a head. The value is without the white space around it.
#[derive(Clone, Copy)]
pub struct HeadField<'b> {
    pub name: &'b [u8],
    pub value: &'b [u8],
}

/// The parts of a head.
#[derive(Drop)]
pub struct Head<'b> {
    pub method: &'b [u8],
    pub target: &'b str,
    pub fields: Vec<HeadField<'b>>,
    /// The number of bytes of the head.
    pub len: usize,
}

/// Returns the number of line feeds.
fn count_line_feeds(bytes: &[u8]) -> usize
    ensures { result ≡ line_feeds bytes.now }
{
    let mut count = 0;
    for &byte in bytes {
        if byte == b'\n' {
            count += 1;
        }
    }
    count
}

/// Reads the head that bytes begin with. `place` is where they end, and `spans` becomes the places of the fields, of which there are at most as
/// many as line feeds.
pub fn read_head(
    alloc: Global,
    bytes: &[u8],
    place: Place,
    spans: &mut Vec<HeaderSpan>,
) -> Result<Heard, AllocError>
    requires scanned { place ≡ place_of bytes.now }
    ensures { IfOk result (λ heard. HearsAs bytes.now spans.new.items heard) }
{
    *spans = vec![in alloc; EMPTY_HEADER_SPAN; count_line_feeds(bytes)]?;
    Ok(parsed_head(bytes, place, spans))
}

fn parsed_head(bytes: &[u8], place: Place, spans: &mut [HeaderSpan]) -> Heard
    requires room { line_feeds bytes.now ≤ length spans.old }
    requires scanned { place ≡ place_of bytes.now }
    ensures { HearsAs bytes.now spans.new result }
{
    match parse_request(bytes, spans) {
        Ok(Status::Complete(head)) => Heard::Finished(head),
        Ok(Status::Partial) => Heard::More,
        Err(_) => {
            if place.is_in_target() {
                Heard::More
            } else {
                Heard::NotHttp
            }
        }
    }
}

/// Returns what bytes are that end at `place`. They are parsed only if that is the end of a head.
pub fn scanned_head(
    alloc: Global,
    bytes: &[u8],
    place: Place,
    spans: &mut Vec<HeaderSpan>,
) -> Result<Heard, AllocError>
    requires scanned { place ≡ place_of bytes.now }
    ensures { IfOk result (λ heard. ScansAs bytes.now spans.new.items heard) }
{
    match place {
        Place::Whole => read_head(alloc, bytes, place, spans),
        Place::Dead => Ok(Heard::NotHttp),
        _ => Ok(Heard::More),
    }
}

/// Returns the text of a target.
fn text_of(target: &[u8]) -> &str
    requires { IsUtf8 target.now }
    ensures { result.now ≡ target.now }
{
    match std::str::from_utf8(target) {
        Ok(text) => text,
        Err(_) => "",
    }
}

/// Returns the fields that spans cover.
fn fields_of<'b>(
    alloc: Global,
    bytes: &'b [u8],
    spans: &[HeaderSpan],
) -> Result<Vec<HeadField<'b>>, AllocError>
    requires { All (IsHeaderWithin (length bytes.now)) spans.now }
    ensures { IfOk result (λ fields. fields_seen fields.items ≡ map (header_bytes bytes.now) spans.now) }
{
    let mut fields = Vec::new(alloc);
    for span in spans {
        fields.push(HeadField {
            name: span.name.of(bytes),
            value: span.value.of(bytes),
        })?;
    }
    Ok(fields)
}

/// Returns the parts of a head that was read.
pub fn parts_of<'b>(
    alloc: Global,
    bytes: &'b [u8],
    head: &RequestSpans,
    spans: &[HeaderSpan],
) -> Result<Head<'b>, AllocError>
    requires whole { IsRequestOf bytes.now spans.now head.now }
    requires within { IsRequestWithin bytes.now spans.now head.now }
    ensures { IfOk result (λ parts. (h : RequestHead) × IsHeadOf bytes.now h parts) }
{
    let fields = fields_of(alloc, bytes, &spans[..head.headers])?;
    Ok(Head {
        method: head.method.of(bytes),
        target: text_of(head.path.of(bytes)),
        fields,
        len: head.len,
    })
}
