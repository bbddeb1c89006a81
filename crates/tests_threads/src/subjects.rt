use header_words::{Memory, base_subject, fields, message_ids};
use std::alloc::Global;
use std::test::Fail;

/// The base subject of a subject, after `re ` if a mark of a reply or forward was removed.
fn shown(alloc: Global, subject: &str) -> Result<String, Memory> {
    let base = base_subject(alloc, subject)?;
    let mark = if base.reply { "re " } else { "" };
    let mut text = String::from_str(alloc, mark)?;
    text.push_str(base.text.as_str())?;
    Ok(text)
}

#[test]
fn reads_base_subjects(rt: HostRuntime) -> Result<(), Fail> {
    let alloc = rt.alloc();
    for (subject, want) in [
        ("Re: Re[2]: [x] y (fwd)", "re y"),
        ("[fwd: y]", "re y"),
        ("y", "y"),
        ("", ""),
        (" \t \r\n ", ""),
        ("RE : \t FwD: [l]  \u{e9}t\u{e9} ", "re \u{e9}t\u{e9}"),
        ("[\u{e9}] \u{1F600} (FWD)(fwd)", "re \u{1F600}"),
        ("[a][b]", "[b]"),
        ("[a", "[a"),
        ("re", "re"),
        ("Re: [fwd: Re: [fwd: z (fwd)]]", "re z"),
    ] {
        let text = shown(alloc, subject)?;
        assert_eq!(rt; text.as_str(), want, "{subject}");
    }
    Ok(())
}

/// A long text: a beginning, a part 20,000 times, and an end.
fn long(alloc: Global, front: &str, part: &str, end: &str) -> Result<String, Memory> {
    let mut text = String::from_str(alloc, front)?;
    for _ in 0..20_000 {
        text.push_str(part)?;
    }
    text.push_str(end)?;
    Ok(text)
}

#[test]
fn reads_long_subjects(rt: HostRuntime) -> Result<(), Fail> {
    let alloc = rt.alloc();
    for (front, part, end, want) in [
        ("", "re:", "", "re "),
        ("", "[x]", "", "[x]"),
        ("", "[x]", "re:y", "re y"),
        ("", "[x]", "y", "y"),
        ("", "(fwd)", "", "re "),
        ("", "[x]re:", "z", "re z"),
        ("a", " ", "", "a"),
    ] {
        let subject = long(alloc, front, part, end)?;
        let text = shown(alloc, &subject)?;
        assert_eq!(rt; text.as_str(), want, "{part}{end}");
    }
    Ok(())
}

#[test]
fn keeps_long_subjects(rt: HostRuntime) -> Result<(), Fail> {
    let alloc = rt.alloc();
    for (part, end) in [
        ("fwd ", ": b"),
        ("re[", ""),
        ("[", ""),
        ("]", ""),
        ("[fwd:", ""),
    ] {
        let subject = long(alloc, "", part, end)?;
        let text = shown(alloc, &subject)?;
        assert_eq!(rt; text.as_str() == subject.as_str(), true, "{part}{end}");
    }
    Ok(())
}

#[test]
fn reads_nested_forwards(rt: HostRuntime) -> Result<(), Fail> {
    let alloc = rt.alloc();
    let mut subject = long(alloc, "", "[fwd: ", "c")?;
    for _ in 0..20_000 {
        subject.push_str("]")?;
    }
    let text = shown(alloc, &subject)?;
    assert_eq!(rt; text.as_str(), "re c");
    Ok(())
}

/// The identifiers in a field's value, joined by `|`.
fn ids(alloc: Global, value: &str) -> Result<String, Memory> {
    let message = format!(in alloc; "References: {value}\r\n\r\n")?;
    let read = fields(alloc, message.as_bytes())?;
    let mut text = String::new(alloc);
    if let Some(field) = read.first("references") {
        for id in message_ids(alloc, &field)?.iter() {
            let spelled = String::from_utf8_lossy(alloc, id.as_slice())?;
            write!(text, "{spelled}|")?;
        }
    }
    Ok(text)
}

#[test]
fn finds_message_ids(rt: HostRuntime) -> Result<(), Fail> {
    let alloc = rt.alloc();
    for (value, want) in [
        ("<a@x> <b@x>", "a@x|b@x|"),
        ("<a@x>\r\n\t<b@x>", "a@x|b@x|"),
        ("<a@\r\n x> <c@d>", "c@d|"),
        ("", ""),
        ("a@x", ""),
        ("<<a@x>>", "a@x|"),
        ("<ab> <@> <a b@c>", "@|"),
        ("<a@x", ""),
        ("x <\"a\"@[1.2]>,<\u{e9}@y>", "\"a\"@[1.2]|\u{e9}@y|"),
    ] {
        let text = ids(alloc, value)?;
        assert_eq!(rt; text.as_str(), want, "{value}");
    }
    for (part, want) in [("<", ""), ("<a", ""), ("@", "")] {
        let value = long(alloc, "", part, "")?;
        let text = ids(alloc, &value)?;
        assert_eq!(rt; text.as_str(), want, "{part}");
    }
    Ok(())
}
