//! Pages written by many calls, proved from the contracts of these calls alone, and the bytes of some.
ghost use Rattle.std.specs.Prelude.{◌≡◌, ℕ, List, [], ◌∷◌, ◌++◌, codes, chars, encode_utf8_all, OnOk, IfOk};
ghost use Rattle.html_syntax.specs.Token.Token.{Start, End, Char, Doctype};
ghost use Rattle.html_syntax.specs.Tokenizer.{tokens_of_bytes};
ghost use Rattle.page_writer.specs.Page.{spell, MayStart};
ghost use Rattle.html_rules.specs.Tokens.{start_tag, start_tag_with, text_tokens, replace_nulls};
ghost use Rattle.page_writer.specs.Writer.{with_token};

use html_syntax::Attributes;
use mail_io::{MemorySink, Sink};
use page_writer::{Memory, PageBytes, PageOut, WRITE_ROOM, write_page};
use std::alloc::Global;
use std::test::Fail;

fn open(alloc: Global, out: &mut PageOut, name: &str) -> Result<(), Memory>
    requires { MayStart out.old.opened (chars name.now) [] }
    ensures { OnOk result (out.new ≡ with_token out.old (start_tag (chars name.now))) }
{
    out.start(alloc, name, &Attributes::new(alloc))
}

fn open_with(
    alloc: Global,
    out: &mut PageOut,
    name: &str,
    attribute: &str,
    value: &str,
) -> Result<(), Memory>
    requires { MayStart out.old.opened (chars name.now) (record { name = chars attribute.now; value = chars value.now } ∷ []) }
    ensures { OnOk result (out.new ≡ with_token out.old (Start (chars name.now) (replace_nulls (record { name = chars attribute.now; value = chars value.now } ∷ [])))) }
{
    let mut attributes = Attributes::new(alloc);
    attributes.push(alloc, attribute, value)?;
    out.start(alloc, name, &attributes)
}

#[tactic(auto, unfolding(page_writer::specs::Writing::literals))]
fn small_page(alloc: Global, title: &str, text: &str) -> Result<PageBytes, Memory>
    ensures { IfOk result (λ page. tokens_of_bytes page ≡ Doctype ∷ start_tag_with (codes "html") (codes "lang") (codes "en") ∷ start_tag (codes "head") ∷ start_tag_with (codes "meta") (codes "charset") (codes "utf-8") ∷ start_tag (codes "title") ∷ text_tokens (chars title.now) ++ (End (codes "title") ∷ End (codes "head") ∷ start_tag (codes "body") ∷ text_tokens (chars text.now) ++ (End (codes "body") ∷ End (codes "html") ∷ []))) }
{
    let mut out = PageOut::new(alloc);
    out.doctype()?;
    open_with(alloc, &mut out, "html", "lang", "en")?;
    open(alloc, &mut out, "head")?;
    open_with(alloc, &mut out, "meta", "charset", "utf-8")?;
    open(alloc, &mut out, "title")?;
    out.chars(title)?;
    out.end()?;
    out.end()?;
    open(alloc, &mut out, "body")?;
    out.chars(text)?;
    out.end()?;
    out.end()?;
    Ok(out.finish())
}

/// What a sink of this room, whose calls of these numbers fail, holds after a page was written to it, and whether that was all.
fn written(
    alloc: Global,
    page: &PageBytes,
    size: usize,
    failing: &[u64],
) -> Result<(bool, Vec<u8>), Memory> {
    let mut room = Vec::with_capacity(alloc, WRITE_ROOM)?;
    let mut sink = MemorySink::new(alloc, size, Vec::from_slice(alloc, failing)?)?;
    let is_whole = write_page(&mut sink, page, &mut room).is_ok();
    Ok((is_whole, Vec::from_slice(alloc, sink.taken())?))
}

#[test]
fn writes_pages(rt: HostRuntime) -> Result<(), Fail> {
    let alloc = rt.alloc();
    let page = small_page(alloc, "a<b", "\"x\" & y\r\n\0")?;
    let expected =
        "<!DOCTYPE html><html lang=\"en\"><head><meta charset=\"utf-8\"><title>a&lt;b</title></head><body>&quot;x&quot; &amp; y&#13;\n\u{FFFD}</body></html>";
    let (is_whole, bytes) = written(alloc, &page, 1000, &[])?;
    assert!(rt; is_whole);
    assert_eq!(rt; bytes.as_slice(), expected.as_bytes());
    Ok(())
}

/// A text of this many copies of a piece.
fn repeated(alloc: Global, piece: &str, count: usize) -> Result<String, Memory> {
    let mut text = String::new(alloc);
    for _ in 0..count {
        text.push_str(piece)?;
    }
    Ok(text)
}

#[test]
fn writes_long_texts_piece_by_piece(rt: HostRuntime) -> Result<(), Fail> {
    let alloc = rt.alloc();
    for (piece, spelled) in [("\"", "&quot;"), ("a", "a"), ("\u{e9}&", "\u{e9}&amp;")] {
        let title = repeated(alloc, piece, 70_000)?;
        let page = small_page(alloc, title.as_str(), "short")?;
        let spelled = repeated(alloc, spelled, 70_000)?;
        let expected = format!(in alloc;
            "<!DOCTYPE html><html lang=\"en\"><head><meta charset=\"utf-8\"><title>{spelled}</title></head><body>short</body></html>"
        )?;
        let (is_whole, bytes) = written(alloc, &page, 1_000_000, &[])?;
        assert!(rt; is_whole);
        assert!(rt; bytes.as_slice() == expected.as_bytes(), "{piece}");
        let (is_whole, bytes) = written(alloc, &page, 1_000_000, &[3])?;
        assert!(rt; !is_whole);
        assert!(rt;
            expected.as_bytes().starts_with(bytes.as_slice()),
            "{piece}"
        );
    }
    Ok(())
}
