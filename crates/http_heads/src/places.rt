//! Where in a request's head its bytes end.
ghost use Rattle.std.specs.Prelude.{◌≡◌, fold};
ghost use Rattle.http_heads.specs.Places as spec;
ghost use Rattle.http_heads.specs.declared.places.Place.TheVariants.{FieldStart, Start, TargetStart, Value, Version};

use httparse::{is_header_name_token, is_header_value_token, is_method_token, is_uri_token};

/// A place in a request's head. A head is scanned once, byte by byte, however it is cut.
#[derive(Clone, Copy, PartialEq, Eq)]
pub enum Place {
    /// In the empty lines before the request line.
    Start,
    /// After the CR of one of those.
    StartReturn,
    Method,
    /// Before the first byte of the target.
    TargetStart,
    Target,
    /// In the version, after this many of the seven bytes `HTTP/1.`.
    Version(u8),
    /// After the version.
    VersionEnd,
    /// After the CR of a line.
    LineReturn,
    /// At the front of a field's line, or of the empty line.
    FieldStart,
    /// After the CR of the empty line.
    LastReturn,
    Name,
    Value,
    /// After the empty line that ends the head.
    Whole,
    /// After bytes that no head begins with.
    Dead,
}

/// Returns the place after one more byte of a line's end.
fn at_line_end(byte: u8) -> Place
    ensures { result ≡ spec.at_line_end byte }
{
    match byte {
        b'\n' => Place::FieldStart,
        b'\r' => Place::LineReturn,
        _ => Place::Dead,
    }
}

/// Returns a place if a byte was the expected one.
fn expect(byte: u8, expected: u8, place: Place) -> Place
    ensures { result ≡ spec.expect byte expected place }
{
    if byte == expected { place } else { Place::Dead }
}

/// Returns the place after one more byte of the empty lines before the request line.
fn at_start(byte: u8) -> Place
    ensures { result ≡ spec.step Start byte }
{
    if is_method_token(byte) {
        return Place::Method;
    }
    match byte {
        b'\r' => Place::StartReturn,
        b'\n' => Place::Start,
        _ => Place::Dead,
    }
}

/// Returns the place after one more byte of the version.
fn in_version(at: u8, byte: u8) -> Place
    ensures { result ≡ spec.step (Version at) byte }
{
    if at < 7 {
        return expect(byte, b"HTTP/1."[at as usize], Place::Version(at + 1));
    }
    match byte {
        b'0' | b'1' => Place::VersionEnd,
        _ => Place::Dead,
    }
}

/// Returns the place after the first byte of a field's line, or of the empty line.
fn at_field(byte: u8) -> Place
    ensures { result ≡ spec.step FieldStart byte }
{
    if is_header_name_token(byte) {
        return Place::Name;
    }
    match byte {
        b'\r' => Place::LastReturn,
        b'\n' => Place::Whole,
        _ => Place::Dead,
    }
}

/// Returns the place after the first byte of a target.
fn in_target(byte: u8) -> Place
    ensures { result ≡ spec.step TargetStart byte }
{
    if is_uri_token(byte) {
        Place::Target
    } else {
        Place::Dead
    }
}

/// Returns the place after one more byte of a run, or after the byte that ends it.
fn in_run(goes_on: bool, run: Place, byte: u8, end: u8, place: Place) -> Place
    ensures { result ≡ spec.in_run goes_on run byte end place }
{
    if goes_on {
        run
    } else {
        expect(byte, end, place)
    }
}

/// Returns the place after one more byte of a value.
fn in_value(byte: u8) -> Place
    ensures { result ≡ spec.step Value byte }
{
    if is_header_value_token(byte) {
        Place::Value
    } else {
        at_line_end(byte)
    }
}

/// Returns the place after one more byte.
fn step(place: Place, byte: u8) -> Place
    ensures { result ≡ spec.step place byte }
{
    match place {
        Place::Start => at_start(byte),
        Place::StartReturn => expect(byte, b'\n', Place::Start),
        Place::Method => in_run(
            is_method_token(byte),
            Place::Method,
            byte,
            b' ',
            Place::TargetStart,
        ),
        Place::TargetStart => in_target(byte),
        Place::Target => in_run(
            is_uri_token(byte),
            Place::Target,
            byte,
            b' ',
            Place::Version(0),
        ),
        Place::Version(at) => in_version(at, byte),
        Place::VersionEnd => at_line_end(byte),
        Place::LineReturn => expect(byte, b'\n', Place::FieldStart),
        Place::FieldStart => at_field(byte),
        Place::LastReturn => expect(byte, b'\n', Place::Whole),
        Place::Name => in_run(
            is_header_name_token(byte),
            Place::Name,
            byte,
            b':',
            Place::Value,
        ),
        Place::Value => in_value(byte),
        Place::Whole => Place::Whole,
        Place::Dead => Place::Dead,
    }
}

impl Place {
    ghost use Rattle.std.specs.Prelude.{fold};
    ghost use Rattle.http_heads.specs.Places as spec;

    /// Returns the place after more bytes.
    pub fn after(self, bytes: &[u8]) -> Place
        ensures { result ≡ fold spec.step self bytes.now }
    {
        let mut place = self;
        for &byte in bytes {
            place = step(place, byte);
        }
        place
    }

    /// Whether the place is in a target.
    pub fn is_in_target(self) -> bool
        ensures { result ≡ spec.is_in_target self }
    {
        matches!(self, Place::TargetStart | Place::Target)
    }
}
