// Pieces of a text that the scanner lends or makes, and tags that are read in place.
use html_tokens::{Lexeme, Memory, Part, Scanner, StartTag};
use std::alloc::Global;
use std::process::Abort;
use std::test::Fail;

// A text, and the piece of each of its spans.
static PIECES: [&str; 24] = [
    "a b<i>c&amp;d",
    r#"Lent "a b", Made Start "i", Made Chars "c&d""#,
    "</i>é",
    r#"Made End "i", Lent "é""#,
    "a\rb",
    r#"Made Chars "a\nb""#,
    "a\0b",
    r#"Made Chars "a\0b""#,
    "a > b < c",
    r#"Lent "a > b < c""#,
    "<title>a</title>",
    r#"Made Start "title", Lent "a", Made End "title""#,
    "<title>a&lt;b</title>",
    r#"Made Start "title", Made Chars "a<b", Made End "title""#,
    "<style>a & b</style>",
    r#"Made Start "style", Made Chars "a & b", Made End "style""#,
    "<style>a > b</style>",
    r#"Made Start "style", Lent "a > b", Made End "style""#,
    "<!-- c --><!doctype html>d",
    r#"Made Comment " c ", Made Doctype, Lent "d""#,
    "<plaintext><b>",
    r#"Made Start "plaintext", Lent "<b>""#,
    "",
    "",
];

fn piece_text(alloc: Global, piece: &Lexeme<'_>) -> Result<String, Memory> {
    match piece {
        Lexeme::Lent(text) => format!(in alloc; "Lent {text:?}"),
        Lexeme::Made(token) => format!(in alloc; "Made {token}"),
    }
}

fn pieces_of(alloc: Global, text: &str) -> Result<String, Memory> {
    let mut out = String::new(alloc);
    let mut scanner = Scanner::new(text);
    for _ in 0..text.len() {
        let Some(span) = scanner.next() else {
            break;
        };
        if !out.is_empty() {
            out.push_str(", ")?;
        }
        let piece = scanner.piece(alloc, &span)?;
        out.push_str(piece_text(alloc, &piece)?.as_str())?;
    }
    Ok(out)
}

// A text, and the tags that are read in place, a start tag with all its attributes.
static TAGS: [&str; 10] = [
    "<A href=x HREF='y &lt; z' b>",
    r#"<"a" "href"="x" "href"="y < z" "b"="">"#,
    "x<br/a=1\rb=\"2\"c>y</BR z=1><!-- <p> -->",
    r#"<"br" "a"="1" "b"="2" "c"=""></"br">"#,
    "<p =a=b \0=\0>",
    "<\"p\" \"=a\"=\"b\" \"\u{fffd}\"=\"\u{fffd}\">",
    "<h1><title><b></title>",
    r#"<"h1"><"title"></"title">"#,
    "<a b",
    "",
];

fn push_start(
    alloc: Global,
    out: &mut String,
    tag: &StartTag<'_>,
    most: usize,
) -> Result<(), Memory> {
    let name = tag.name().to_string(alloc)?;
    out.push_str(format!(in alloc; "<{name:?}")?.as_str())?;
    let mut reader = tag.attributes();
    for _ in 0..most {
        let Some(attribute) = reader.next() else {
            break;
        };
        let name = attribute.name().to_string(alloc)?;
        let value = attribute.value(alloc)?.into_owned(alloc)?;
        out.push_str(format!(in alloc; " {name:?}={value:?}")?.as_str())?;
    }
    out.push('>')
}

fn tags_of(alloc: Global, text: &str) -> Result<String, Memory> {
    let mut out = String::new(alloc);
    let mut scanner = Scanner::new(text);
    for _ in 0..text.len() {
        let Some(span) = scanner.next() else {
            break;
        };
        match span.part() {
            Part::StartTag => {
                push_start(alloc, &mut out, &scanner.start_tag(&span), text.len())?;
            }
            Part::EndTag => {
                let name = scanner.end_tag(&span).to_string(alloc)?;
                out.push_str(format!(in alloc; "</{name:?}>")?.as_str())?;
            }
            _ => {}
        }
    }
    Ok(out)
}

fn assert_pieces(rt: &impl Abort, alloc: Global, table: &[&str]) -> Result<(), Fail> {
    for row in table.chunks(2) {
        match row {
            [text, pieces] => {
                assert_eq!(rt; pieces_of(alloc, *text)?.as_str(), *pieces, "in {text:?}");
            }
            _ => return Err("a text without pieces".into()),
        }
    }
    Ok(())
}

fn assert_tags(rt: &impl Abort, alloc: Global, table: &[&str]) -> Result<(), Fail> {
    for row in table.chunks(2) {
        match row {
            [text, tags] => {
                assert_eq!(rt; tags_of(alloc, *text)?.as_str(), *tags, "in {text:?}");
            }
            _ => return Err("a text without tags".into()),
        }
    }
    Ok(())
}

#[test]
fn plain_runs_are_lent_and_all_else_is_made(rt: HostRuntime) -> Result<(), Fail> {
    assert_pieces(&rt, rt.alloc(), &PIECES)
}

#[test]
fn tags_are_read_in_place(rt: HostRuntime) -> Result<(), Fail> {
    assert_tags(&rt, rt.alloc(), &TAGS)
}

#[test]
fn names_read_as_words_in_any_case(rt: HostRuntime) -> Result<(), Fail> {
    let mut scanner = Scanner::new("</H1>");
    match scanner.next() {
        Some(span) if matches!(span.part(), Part::EndTag) => {
            let name = scanner.end_tag(&span);
            assert!(&rt; name.reads_as("h1"));
            assert!(&rt; !name.reads_as("h"));
            assert!(&rt; !name.reads_as("h2"));
            Ok(())
        }
        _ => Err("no end tag".into()),
    }
}
