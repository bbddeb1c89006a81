//! The text of a part, written in pieces.
ghost use Rattle.std.specs.Prelude.{◌≡◌, ◌<◌, ◌≤◌, ◌++◌, ◌∷◌, [], false, length, IfOk, OnOk, IfSome, OnSome, IfNone, string_bytes};
ghost use Rattle.std.specs.List.{before_first, after_first, position_or_len};
ghost use Rattle.mail_pages.specs.Text.{is_carriage_return, with_line_feeds, skip_line_feed};
ghost use Rattle.std.specs.Str.Lossy.{utf8_lossy};
ghost use Rattle.transfer_codings.specs.Charsets.{text_in};
ghost use Rattle.page_frames.specs.Elements.{with_tokens, text as text_tokens};
ghost use Rattle.mail_pages.specs.Gathered.{GathersText};

use memchr::memchr;
use page_writer::{Memory, PageOut};
use std::alloc::Global;
use transfer_codings::{Charset, text_of};

/// Writes bytes as text: decoded by their charset, with CR LF and lone CR as LF.
pub fn write_body(
    alloc: Global,
    out: &mut PageOut,
    charset: Charset,
    bytes: &[u8],
) -> Result<(), Memory>
    ensures { OnOk result (out.new ≡ with_tokens out.old (text_tokens (with_line_feeds (text_in charset bytes.now))) out.old.opened) }
{
    match charset {
        Charset::Utf8 => write_utf8(alloc, out, bytes),
        Charset::Ascii | Charset::Latin1 | Charset::Windows1252 | Charset::Latin9 => {
            let text = text_of(alloc, charset, bytes)?;
            write_lines(alloc, out, &text)
        }
    }
}

/// Writes bytes as UTF-8, lossily. Valid UTF-8 is not copied.
fn write_utf8(alloc: Global, out: &mut PageOut, bytes: &[u8]) -> Result<(), Memory>
    ensures { OnOk result (out.new ≡ with_tokens out.old (text_tokens (with_line_feeds (utf8_lossy bytes.now))) out.old.opened) }
{
    match simdutf8::compat::from_utf8(bytes) {
        Ok(text) => write_lines(alloc, out, text),
        Err(_) => write_lossily(alloc, out, bytes),
    }
}

/// Writes bytes with U+FFFD in place of each invalid sequence.
fn write_lossily(alloc: Global, out: &mut PageOut, bytes: &[u8]) -> Result<(), Memory>
    ensures { OnOk result (out.new ≡ with_tokens out.old (text_tokens (with_line_feeds (utf8_lossy bytes.now))) out.old.opened) }
{
    let mut gathered = String::new(alloc);
    for chunk in bytes.utf8_chunks() {
        add_lines(out, &mut gathered, chunk.valid())?;
        if !chunk.invalid().is_empty() {
            add_text(out, &mut gathered, "\u{FFFD}")?;
        }
    }
    out.chars(&gathered)
}

/// Writes a text with CR LF and lone CR as LF.
fn write_lines(alloc: Global, out: &mut PageOut, text: &str) -> Result<(), Memory>
    ensures { OnOk result (out.new ≡ with_tokens out.old (text_tokens (with_line_feeds text.now)) out.old.opened) }
{
    if has_return(text) {
        write_with_line_feeds(alloc, out, text)
    } else {
        out.chars(text)
    }
}

fn has_return(text: &str) -> bool
    ensures { result ≡ false → length text.now ≤ position_or_len is_carriage_return text.now }
{
    memchr(b'\r', text.as_bytes()).is_some()
}

fn write_with_line_feeds(alloc: Global, out: &mut PageOut, text: &str) -> Result<(), Memory>
    ensures { OnOk result (out.new ≡ with_tokens out.old (text_tokens (with_line_feeds text.now)) out.old.opened) }
{
    let mut gathered = String::new(alloc);
    add_lines(out, &mut gathered, text)?;
    out.chars(&gathered)
}

/// Gathers a text with CR LF and lone CR as LF.
fn add_lines(out: &mut PageOut, gathered: &mut String, text: &str) -> Result<(), Memory>
    ensures { OnOk result (GathersText out.old (string_bytes gathered.old) out.new (string_bytes gathered.new) (with_line_feeds text.now)) }
{
    let mut rest = text;
    while let Some((line, after)) = cut(rest) {
        add_line(out, gathered, line)?;
        rest = without_first_line_feed(after);
    }
    add_text(out, gathered, rest)
}

/// Gathers a line and an LF.
fn add_line(out: &mut PageOut, gathered: &mut String, line: &str) -> Result<(), Memory>
    ensures { OnOk result (GathersText out.old (string_bytes gathered.old) out.new (string_bytes gathered.new) (line.now ++ 10 ∷ [])) }
{
    gathered.push_str(line)?;
    gathered.push('\n')?;
    write_many(out, gathered)
}

/// Gathers a text.
fn add_text(out: &mut PageOut, gathered: &mut String, text: &str) -> Result<(), Memory>
    ensures { OnOk result (GathersText out.old (string_bytes gathered.old) out.new (string_bytes gathered.new) text.now) }
{
    gathered.push_str(text)?;
    write_many(out, gathered)
}

/// Length in bytes from which gathered text is written. Gathering a whole text would copy it once more.
const GATHERED: usize = 65_536;

/// Writes the gathered text if it is long enough.
fn write_many(out: &mut PageOut, gathered: &mut String) -> Result<(), Memory>
    ensures { OnOk result (GathersText out.old (string_bytes gathered.old) out.new (string_bytes gathered.new) []) }
{
    if gathered.len() >= GATHERED {
        out.chars(gathered)?;
        gathered.clear();
    }
    Ok(())
}

/// The text before the first CR and after it.
fn cut(text: &str) -> Option<(&str, &str)>
    ensures line { IfSome result (λ parts. parts.0.now ≡ before_first is_carriage_return text.now) }
    ensures after { IfSome result (λ parts. parts.1.now ≡ after_first is_carriage_return text.now) }
    ensures found { OnSome result (position_or_len is_carriage_return text.now < length text.now) }
    ensures none { IfNone result (position_or_len is_carriage_return text.now ≡ length text.now) }
{
    text.split_once('\r')
}

fn without_first_line_feed(text: &str) -> &str
    ensures { result.now ≡ skip_line_feed text.now }
{
    match text.strip_prefix('\n') {
        Some(rest) => rest,
        None => text,
    }
}
