use header_words::{Memory, decoded, decoded_words, fields, find_byte, first_line, trim, unfolded};
use std::alloc::Global;
use std::test::Fail;

/// The fields of a message as one text: for each its name, `=` and its value, then the place of the body.
fn shown(alloc: Global, message: &[u8]) -> Result<String, Memory> {
    let read = fields(alloc, message)?;
    let mut text = String::new(alloc);
    for index in 0..read.len() {
        let field = read.get(index);
        let name = String::from_utf8_lossy(alloc, field.name())?;
        let value = decoded(alloc, &field)?;
        write!(text, "{name}={value}|")?;
    }
    let body = read.body_at();
    write!(text, "{body}")?;
    Ok(text)
}

#[test]
fn reads_fields(rt: HostRuntime) -> Result<(), Fail> {
    let alloc = rt.alloc();
    for (message, want) in [
        (b"".as_slice(), "0"),
        (b"\r\nSubject: a", "2"),
        (b"Subject: t\r\n\r\nbody", "Subject=t|14"),
        (b"A: 1\nB:2\n\nC: 3", "A=1|B=2|10"),
        (b"A: one\r\n two\r\nB: 3", "A=one two|B=3|18"),
        (
            b"A: \xff\r\n\tx \r\nnot a field\r\n y\r\n",
            "A=\u{FFFD} x  y|28",
        ),
        (b" first\r\nA: 1\r\n", "A=1|14"),
        (b"A B: 1\r\n: 2\r\nC\x7f: 3\r\nD: 4", "D=4|24"),
        (b"A: 1\r", "A=1\r|5"),
    ] {
        let text = shown(alloc, message)?;
        assert_eq!(rt; text.as_str(), want);
    }
    Ok(())
}

#[test]
fn finds_the_first_of_a_name(rt: HostRuntime) -> Result<(), Fail> {
    let alloc = rt.alloc();
    let read = fields(alloc, b"To: a\r\nSUBJECT: b\r\nSubject: c\r\nX: d\r\n")?;
    for (name, want) in [
        ("subject", Some("b")),
        ("to", Some("a")),
        ("x", Some("d")),
        ("Cc", None),
        ("", None),
        ("To: a", None),
    ] {
        match read.first(name) {
            Some(field) => {
                let value = decoded(alloc, &field)?;
                assert_eq!(rt; value.as_str(), want.ok_or("no field")?, "{name}");
                let bytes = unfolded(alloc, &field)?;
                assert_eq!(rt; trim(&bytes), value.as_bytes(), "{name}");
            }
            None => assert!(rt; want.is_none(), "{name}"),
        }
    }
    assert!(rt; !read.is_empty());
    Ok(())
}

/// Values with encoded words, and their texts.
const WORDS: [(&[u8], &str); 17] = [
    (
        b"=?utf-8?Q?Caf=C3=A9_week?= at the =?iso-8859-1?b?6Q==?=!",
        "Caf\u{E9} week at the \u{E9}!",
    ),
    (
        b"=?utf-8?q?one?=\r\n =?utf-8?q?_two?= \t=?us-ascii*en?Q?=2E?=",
        "one two.",
    ),
    (b"(=?iso-8859-1?q?a=E9?= b)", "(a\u{E9} b)"),
    (
        b"=?Windows-1252?q?=93a=94?= =?iso-8859-15?b?pA==?=",
        "\u{201C}a\u{201D}\u{20AC}",
    ),
    (
        b"=?utf-8?q?_a_?= =?x-none?q?b?= =?utf-8?q??=",
        "a  =?x-none?q?b?= =?utf-8?q??=",
    ),
    (
        b"=?utf-8?q?\xff?= \"=?utf-8?q?c?=\"",
        "=?utf-8?q?\u{FFFD}?= \"c\"",
    ),
    (
        b"\"=?ISO-8859-1?Q?Fran=E7ois?=\" <f@x.example>",
        "\"Fran\u{E7}ois\" <f@x.example>",
    ),
    (b"=?utf-8?q?a?==?utf-8?b?Yg==?=,=?utf-8?q?c?=", "ab,c"),
    (b"x=?utf-8?q?a b?=y", "xa by"),
    (b"=?utf-8?q?a?=  b  =?utf-8?q?c?=", "a  b  c"),
    (b"=?utf-8?q?=C3?==?utf-8?q?=A9?=", "\u{FFFD}\u{FFFD}"),
    (b"=?=?utf-8?q?a?=?=", "=?a?="),
    (b"=?utf-8?q?=?utf-8?q?a?=?=", "=?utf-8?q?a?="),
    (b"=?utf-8?b?YQ ==?= =?utf-8", "=?utf-8?b?YQ ==?= =?utf-8"),
    (b"=?utf-8?q?a\x01b?=", "=?utf-8?q?a\u{1}b?="),
    (
        b"=?us-ascii?q?aaaaaaaaaaaaaaaaaaaaaaaaaaaaaaaaaaaaaaaaaaaaaaaaaaaaaaaaaaaaaaaaaaaaaaaa?=",
        "aaaaaaaaaaaaaaaaaaaaaaaaaaaaaaaaaaaaaaaaaaaaaaaaaaaaaaaaaaaaaaaaaaaaaaaa",
    ),
    (b"", ""),
];

#[test]
fn decodes_words(rt: HostRuntime) -> Result<(), Fail> {
    let alloc = rt.alloc();
    for (value, want) in WORDS {
        let mut message = Vec::from_slice(alloc, b"S: ")?;
        message.extend_from_slice(value)?;
        let read = fields(alloc, &message)?;
        let field = read.first("S").ok_or("a field")?;
        assert_eq!(rt; decoded(alloc, &field)?.as_str(), want);
    }
    Ok(())
}

#[test]
fn decodes_words_of_a_text(rt: HostRuntime) -> Result<(), Fail> {
    let alloc = rt.alloc();
    for (text, want) in [
        (b" =?utf-8?q?=C3=A9?=.txt ".as_slice(), " \u{E9}.txt "),
        (b"caf\xc3\xa9 \xff", "caf\u{E9} \u{FFFD}"),
        (b"", ""),
    ] {
        let decoded = decoded_words(alloc, text)?;
        assert_eq!(rt; decoded.as_str(), want);
    }
    Ok(())
}

#[test]
fn finds_lines_and_bytes(rt: HostRuntime) -> Result<(), Fail> {
    for (text, want, size) in [
        (b"a\r\nb".as_slice(), b"a".as_slice(), 3),
        (b"a\nb", b"a", 2),
        (b"a\r", b"a\r", 2),
        (b"", b"", 0),
    ] {
        let (line, taken) = first_line(text);
        assert_eq!(rt; line, want);
        assert_eq!(rt; taken, size);
    }
    assert_eq!(rt; find_byte(b'b', b"abb"), 1);
    assert_eq!(rt; find_byte(b'c', b"abb"), 3);
    Ok(())
}
