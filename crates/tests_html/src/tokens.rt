use crate::tables::contents::CONTENTS;
use crate::tables::messages::MESSAGES;
use crate::tables::more_prefixes::MORE_PREFIXES;
use crate::tables::prefixes::PREFIXES;
use crate::tables::tags::TAGS;
use crate::tables::texts::TEXTS;
use html_tokens::{Memory, Scanner, Token, read_tokens};
use std::alloc::Global;
use std::process::Abort;
use std::test::Fail;

// The tokens of a text, separated by spaces. Runs of characters that follow one another are one, as html5lib's are.
fn tokens_of(alloc: Global, text: &str) -> Result<String, Memory> {
    let mut out = String::new(alloc);
    let mut run = String::new(alloc);
    for token in read_tokens(alloc, text)? {
        if let Token::Chars(more) = &token {
            run.push_str(more.as_str())?;
        } else {
            push_run(alloc, &mut out, &mut run)?;
            push_token(&mut out, format!(in alloc; "{token}")?.as_str())?;
        }
    }
    push_run(alloc, &mut out, &mut run)?;
    Ok(out)
}

fn push_run(alloc: Global, out: &mut String, run: &mut String) -> Result<(), Memory> {
    if !run.is_empty() {
        push_token(out, format!(in alloc; "Chars {run:?}")?.as_str())?;
        run.clear();
    }
    Ok(())
}

fn push_token(out: &mut String, token: &str) -> Result<(), Memory> {
    if !out.is_empty() {
        out.push(' ')?;
    }
    out.push_str(token)
}

// Compares the tokens of each text with those after it in the table.
fn assert_table(rt: &impl Abort, alloc: Global, table: &[&str]) -> Result<(), Fail> {
    for row in table.chunks(2) {
        match row {
            [text, tokens] => {
                assert_eq!(rt; tokens_of(alloc, *text)?.as_str(), *tokens, "in {text:?}");
            }
            _ => return Err("a text without tokens".into()),
        }
    }
    Ok(())
}

#[test]
fn texts_have_the_tokens_that_html5lib_gives(rt: HostRuntime) -> Result<(), Fail> {
    assert_table(&rt, rt.alloc(), &TEXTS)
}

#[test]
fn contents_have_the_tokens_that_html5lib_gives(rt: HostRuntime) -> Result<(), Fail> {
    assert_table(&rt, rt.alloc(), &CONTENTS)
}

#[test]
fn tags_have_the_tokens_that_html5lib_gives(rt: HostRuntime) -> Result<(), Fail> {
    assert_table(&rt, rt.alloc(), &TAGS)
}

#[test]
fn messages_have_the_tokens_that_html5lib_gives(rt: HostRuntime) -> Result<(), Fail> {
    assert_table(&rt, rt.alloc(), &MESSAGES)
}

// The tokens of a line: it tells how many characters of the tokens before are kept, and what comes after them.
fn tokens_in(alloc: Global, before: &str, line: &str) -> Result<String, Fail> {
    let (kept, more) = line.split_once('|').ok_or("a line without a bar")?;
    let kept = kept.parse::<usize>().ok().ok_or("a line without a number")?;
    let mut tokens = before.chars().take(kept).collect::<String>(alloc)?;
    tokens.push_str(more)?;
    Ok(tokens)
}

fn assert_prefixes(rt: &impl Abort, alloc: Global, text: &str, lines: &str) -> Result<(), Fail> {
    let mut prefix = String::new(alloc);
    let mut tokens = String::new(alloc);
    let mut lines = lines.split('\n');
    for c in text.chars() {
        prefix.push(c)?;
        let line = lines.next().ok_or("fewer lines than prefixes")?;
        tokens = tokens_in(alloc, tokens.as_str(), line)?;
        assert_eq!(rt;
            tokens_of(alloc, prefix.as_str())?.as_str(),
            tokens.as_str(),
            "in {prefix:?}"
        );
    }
    assert!(rt; lines.next().is_none());
    Ok(())
}

#[test]
fn prefixes_have_the_tokens_that_html5lib_gives(rt: HostRuntime) -> Result<(), Fail> {
    for (text, lines) in PREFIXES.iter().chain(&MORE_PREFIXES) {
        assert_prefixes(&rt, rt.alloc(), *text, *lines)?;
    }
    Ok(())
}

#[test]
fn a_scanner_gives_spans_and_reads_them(rt: HostRuntime) -> Result<(), Fail> {
    let mut scanner = Scanner::new("a</>b<i c=d>");
    let first = scanner.next().ok_or("no span")?;
    let second = scanner.next().ok_or("no span")?;
    let tag = scanner.next().ok_or("no span")?;
    assert!(rt; scanner.next().is_none());
    assert!(rt; scanner.next().is_none());
    let alloc = rt.alloc();
    for (span, token) in [
        (&first, r#"Chars "a""#),
        (&second, r#"Chars "b""#),
        (&tag, r#"Start "i" "c"="d""#),
    ] {
        let read = scanner.token(alloc, span)?;
        assert_eq!(rt; format!(in alloc; "{read}")?.as_str(), token);
    }
    Ok(())
}
