//! Charsets by name, and the text of bytes in one.

ghost use Rattle.std.specs.Prelude.{◌≡◌, IfOk, map};
ghost use Rattle.std.specs.String.{string_bytes};
ghost use Rattle.std.specs.Str.{encode_utf8_all, str_eq_ignore_ascii_case};
ghost use Rattle.transfer_codings.specs.Charsets.{ascii_character, charset_named, latin9_character as latin9_character_of, text_in, windows_1252_character as windows_1252_character_of};

use std::alloc::{AllocError as Memory, Global};

/// A charset in which text is read.
#[derive(Clone, Copy, Debug, PartialEq, Eq)]
pub enum Charset {
    /// UTF-8 (RFC 3629).
    Utf8,
    /// US-ASCII.
    Ascii,
    /// ISO-8859-1.
    Latin1,
    /// windows-1252 (Encoding Standard).
    Windows1252,
    /// ISO-8859-15.
    Latin9,
}

fn is_named(name: &[u8], word: &[u8]) -> bool
    ensures { result ≡ str_eq_ignore_ascii_case name.now word.now }
{
    name.eq_ignore_ascii_case(word)
}

/// Returns the charset of a name, as in `charset=`, in either case.
pub fn charset_of(name: &[u8]) -> Option<Charset>
    ensures { result ≡ charset_named name.now }
{
    if is_named(name, b"utf-8") || is_named(name, b"utf8") {
        return Some(Charset::Utf8);
    }
    if is_named(name, b"us-ascii") || is_named(name, b"ascii") {
        return Some(Charset::Ascii);
    }
    if is_named(name, b"iso-8859-1") || is_named(name, b"latin1") {
        return Some(Charset::Latin1);
    }
    if is_named(name, b"windows-1252") || is_named(name, b"cp1252") {
        return Some(Charset::Windows1252);
    }
    if is_named(name, b"iso-8859-15") || is_named(name, b"latin9") {
        return Some(Charset::Latin9);
    }
    None
}

/// Returns the text of `bytes` in `charset`. Bytes that are no character are read as U+FFFD, so only memory can fail.
pub fn text_of(alloc: Global, charset: Charset, bytes: &[u8]) -> Result<String, Memory>
    ensures { IfOk result (λ text. string_bytes text ≡ text_in charset bytes.now) }
{
    match charset {
        Charset::Utf8 => String::from_utf8_lossy(alloc, bytes),
        Charset::Ascii => ascii_text(alloc, bytes),
        Charset::Latin1 => latin1_text(alloc, bytes),
        Charset::Windows1252 => windows_1252_text(alloc, bytes),
        Charset::Latin9 => latin9_text(alloc, bytes),
    }
}

fn ascii_text(alloc: Global, bytes: &[u8]) -> Result<String, Memory>
    ensures { IfOk result (λ text. string_bytes text ≡ encode_utf8_all (map ascii_character bytes.now)) }
{
    bytes
        .iter()
        .map(|byte| if *byte < 128 {
            char::from(*byte)
        } else {
            '\u{FFFD}'
        })
        .collect(alloc)
}

fn latin1_text(alloc: Global, bytes: &[u8]) -> Result<String, Memory>
    ensures { IfOk result (λ text. string_bytes text ≡ encode_utf8_all bytes.now) }
{
    bytes.iter().map(|byte| char::from(*byte)).collect(alloc)
}

fn windows_1252_text(alloc: Global, bytes: &[u8]) -> Result<String, Memory>
    ensures { IfOk result (λ text. string_bytes text ≡ encode_utf8_all (map windows_1252_character_of bytes.now)) }
{
    bytes
        .iter()
        .map(|byte| windows_1252_character(*byte))
        .collect(alloc)
}

fn latin9_text(alloc: Global, bytes: &[u8]) -> Result<String, Memory>
    ensures { IfOk result (λ text. string_bytes text ≡ encode_utf8_all (map latin9_character_of bytes.now)) }
{
    bytes
        .iter()
        .map(|byte| latin9_character(*byte))
        .collect(alloc)
}

// The characters of the bytes 0x80 to 0x9F.
static WINDOWS_1252: [char; 32] = [
    '\u{20AC}', '\u{81}', '\u{201A}', '\u{192}', '\u{201E}', '\u{2026}', '\u{2020}', '\u{2021}',
    '\u{2C6}', '\u{2030}', '\u{160}', '\u{2039}', '\u{152}', '\u{8D}', '\u{17D}', '\u{8F}',
    '\u{90}', '\u{2018}', '\u{2019}', '\u{201C}', '\u{201D}', '\u{2022}', '\u{2013}', '\u{2014}',
    '\u{2DC}', '\u{2122}', '\u{161}', '\u{203A}', '\u{153}', '\u{9D}', '\u{17E}', '\u{178}',
];

fn windows_1252_character(byte: u8) -> char
    ensures { result ≡ windows_1252_character_of byte }
{
    if 0x80 <= byte && byte <= 0x9F {
        WINDOWS_1252[(byte - 0x80) as usize]
    } else {
        char::from(byte)
    }
}

#[tactic(auto, unfolding(crate::specs::Charsets::latin9_character))]
fn latin9_character(byte: u8) -> char
    ensures { result ≡ latin9_character_of byte }
{
    match byte {
        0xA4 => '\u{20AC}',
        0xA6 => '\u{160}',
        0xA8 => '\u{161}',
        0xB4 => '\u{17D}',
        0xB8 => '\u{17E}',
        0xBC => '\u{152}',
        0xBD => '\u{153}',
        0xBE => '\u{178}',
        _ => char::from(byte),
    }
}
