//! Trees of malformed messages, beside what the definition computes of them (proofs/MalformedExamples.antt) and what a slow reading of
//! the rules finds (bench/plain_mime_tree.py).
use mime_tree::{Memory, Part, Section, Shown, best, part, tree};
use std::alloc::Global;
use std::test::Fail;

fn push_section(text: &mut String, alloc: Global, section: &Section) -> Result<(), Memory> {
    let spelling = section.spell(alloc)?;
    text.push_str(spelling.as_str())
}

fn push_shown(text: &mut String, alloc: Global, shown: &Shown) -> Result<(), Memory> {
    match shown {
        Shown::Plain(section) => push_named(text, alloc, "plain ", section),
        Shown::Flowed(section, true) => push_named(text, alloc, "flowed+delsp ", section),
        Shown::Flowed(section, false) => push_named(text, alloc, "flowed ", section),
        Shown::Html(section) => push_named(text, alloc, "html ", section),
        Shown::Unread(section) => push_named(text, alloc, "unread ", section),
        Shown::Nothing => text.push_str("nothing"),
    }
}

fn push_named(
    text: &mut String,
    alloc: Global,
    name: &str,
    section: &Section,
) -> Result<(), Memory> {
    text.push_str(name)?;
    push_section(text, alloc, section)
}

/// The sections, types and sizes of a message's parts, and what is shown of it.
fn listed(alloc: Global, message: &[u8]) -> Result<String, Memory> {
    let read = tree(alloc, message)?;
    let mut text = String::new(alloc);
    for part in read.parts() {
        push_section(&mut text, alloc, part.section())?;
        let mime = part.mime();
        let size = part.bytes().len();
        write!(text, " {mime} {size};")?;
    }
    let shown = best(&read);
    push_shown(&mut text, alloc, &shown)?;
    Ok(text)
}

/// Messages, and what is listed of each.
const MESSAGES: [(&str, &str); 67] = [
    ("\n\n", "1 text/plain 1;plain 1"),
    ("Subject: a", "1 text/plain 0;plain 1"),
    ("Subject: a\n\nbody", "1 text/plain 4;plain 1"),
    (" x\n\n--a", "1 text/plain 3;plain 1"),
    (
        "Content-Type: multipart/mixed\n\n--a\n\nx\n",
        "1 application/octet-stream 7;nothing",
    ),
    (
        "Content-Type: multipart/mixed; boundary=\n\n--\n\nx\n----\n",
        "1 application/octet-stream 11;nothing",
    ),
    (
        "Content-Type: multipart/mixed; boundary=\"\"\n\n--\n\nx\n",
        "1 application/octet-stream 6;nothing",
    ),
    (
        "Content-Type: multipart/mixed; boundary=a; boundary=b\n\n--b\n\nx\n--a\n\ny\n",
        "1 text/plain 2;plain 1",
    ),
    (
        "Content-Type: multipart/mixed; boundary=\"a; boundary=b\n\n--a\n\nx\n",
        "1 application/octet-stream 7;nothing",
    ),
    (
        "Content-Type: multipart/mixed; boundary=\"a;b\"\n\n--a;b\n\nx\n--a;b--\n",
        "1 text/plain 1;plain 1",
    ),
    (
        "Content-Type: multipart/mixed; boundary=\"a\\\"b\"\n\n--a\"b\n\nx\n",
        "1 text/plain 2;plain 1",
    ),
    (
        "Content-Type: multipart/mixed; boundary='a'\n\n--'a'\n\nx\n--a\n\ny\n",
        "1 text/plain 9;plain 1",
    ),
    (
        "Content-Type: multipart/mixed; boundary=a (b)\n\n--a (b)\n\nx\n",
        "1 text/plain 2;plain 1",
    ),
    (
        "Content-Type: multipart/mixed;\n boundary=\"a\n  b\"\n\n--a b\n\nx\n",
        "1 text/plain 2;plain 1",
    ),
    (
        "Content-Type: multipart/mixed; boundary\n =a\n\n--a\n\nx\n",
        "1 text/plain 2;plain 1",
    ),
    (
        "Content-Type : multipart/mixed; boundary=a\n\n--a\n\nx\n",
        "1 text/plain 7;plain 1",
    ),
    (
        "Content-Type: multipart/mixed, boundary=a\n\n--a\n\nx\n",
        "1 text/plain 7;plain 1",
    ),
    (
        "Content-Type: multipart; boundary=a\n\n--a\n\nx\n",
        "1 text/plain 7;plain 1",
    ),
    (
        "Content-Type: text\nContent-Type: text/html\n\nx",
        "1 text/plain 1;plain 1",
    ),
    (
        "Content-Type: text/html\nContent-Type: multipart/mixed; boundary=a\n\n--a\n\nx\n",
        "1 text/html 7;html 1",
    ),
    (
        "Content-Type: multipart/mixed; boundary=\"a\"\n\n--a--\n",
        "nothing",
    ),
    (
        "Content-Type: multipart/mixed; boundary=\"a\"\n\n--a\n\nx\n",
        "1 text/plain 2;plain 1",
    ),
    (
        "Content-Type: multipart/mixed; boundary=\"a\"\n\n--a\nx\n--a\ny: z\n--a\n\n--a\n\n\n--a\n\n\n\n--a--\n",
        "1 text/plain 0;2 text/plain 0;3 text/plain 0;4 text/plain 0;5 text/plain 1;plain 1",
    ),
    (
        "Content-Type: multipart/mixed; boundary=\"a\"\r\n\r\n--a\r\n\r\nx\r\n--a\r\n\r\ny\r\n--a--\r\n",
        "1 text/plain 1;2 text/plain 1;plain 1",
    ),
    (
        "Content-Type: multipart/mixed; boundary=\"a\"\n\n--a\r\n\r\nx\r\n--a\r\n\ny\r\n\n--a--\n",
        "1 text/plain 1;2 text/plain 3;plain 1",
    ),
    (
        "Content-Type: multipart/mixed; boundary=\"a\"\n\n--a\n\nx\n--a--\nepilogue\n--a\n\ny\n",
        "1 text/plain 1;plain 1",
    ),
    (
        "pre: x\nContent-Type: multipart/mixed; boundary=\"a\"\n\npreamble\n--a\n\nx\n--a--\n",
        "1 text/plain 1;plain 1",
    ),
    (
        "Content-Type: multipart/mixed; boundary=\"a\"\n\n--a \t\n\nx\n--a-- \t\n",
        "1 text/plain 1;plain 1",
    ),
    (
        "Content-Type: multipart/mixed; boundary=\"a\"\n\n--ab\n\nx\n--a--\n",
        "nothing",
    ),
    (
        "Content-Type: multipart/mixed; boundary=\"a\"\n\n--a\n\nx\n --a\n--a x\n--a-\n---a\n--A\n--a--\n",
        "1 text/plain 26;plain 1",
    ),
    (
        "Content-Type: multipart/mixed; boundary=\"a--\"\n\n--a--\n\nx\n--a--x\n--a----\n",
        "1 text/plain 8;plain 1",
    ),
    (
        "Content-Type: multipart/mixed; boundary=\"a--\"\n\n--a--\n\nx\n--a----\n--a--\n",
        "1 text/plain 1;plain 1",
    ),
    (
        "Content-Type: multipart/mixed; boundary=\"a \"\n\n--a \n\nx\n--a --\n",
        "1 text/plain 1;plain 1",
    ),
    (
        "Content-Type: multipart/mixed; boundary=\"a\t\"\n\n--a\t\n\nx\n--a\n--a\t--\n",
        "1 text/plain 5;plain 1",
    ),
    (
        "Content-Type: multipart/mixed; boundary=\"o\"\n\n--o\nContent-Type: multipart/mixed; boundary=\"oo\"\n\n--oo\n\nx\n--oo\n\ny\n--oo--\n\n--o\n\nz\n--o--\n",
        "1 multipart/mixed 23;1.1 text/plain 1;1.2 text/plain 1;2 text/plain 1;plain 1.1",
    ),
    (
        "Content-Type: multipart/mixed; boundary=\"oo\"\n\n--oo\nContent-Type: multipart/mixed; boundary=\"o\"\n\n--o\n\nx\n--o\n\ny\n--o--\n\n--oo\n\nz\n--oo--\n",
        "1 multipart/mixed 20;1.1 text/plain 1;1.2 text/plain 1;2 text/plain 1;plain 1.1",
    ),
    (
        "Content-Type: multipart/mixed; boundary=\"o\"\n\n--o\nContent-Type: multipart/mixed; boundary=\"o--\"\n\n--o--\n\nx\n--o----\n\n--o\n\nz\n--o--\n",
        "1 multipart/mixed 0;nothing",
    ),
    (
        "Content-Type: multipart/mixed; boundary=\"o\"\n\n--o\nContent-Type: multipart/mixed; boundary=\"o\"\n\n--o\n\nx\n--o--\n\n--o\n\nz\n--o--\n",
        "1 multipart/mixed 0;2 text/plain 1;plain 2",
    ),
    (
        "Content-Type: multipart/mixed; boundary=\"o\"\n\n--o\nContent-Type: multipart/mixed; boundary=\"i\"\n\n--i\n\nx\n\n--o\n\nz\n--o--\n",
        "1 multipart/mixed 7;1.1 text/plain 2;2 text/plain 1;plain 1.1",
    ),
    (
        "Content-Type: multipart/mixed; boundary=\"o\"\n\n--o\nContent-Type: multipart/mixed; boundary=\"i\"\n\n--i\n\nx\n--o\n--i\n\ny\n--i--\n\n--o\n\nz\n--o--\n",
        "1 multipart/mixed 6;1.1 text/plain 1;2 text/plain 8;3 text/plain 1;plain 1.1",
    ),
    (
        "Content-Type: multipart/mixed; boundary=\"o\"\n\n--o\nContent-Type: multipart/mixed; boundary=i\n\n--i\n--o\n\nx\n--i\n\ny\n--o--\n",
        "1 multipart/mixed 3;1.1 text/plain 0;2 text/plain 8;plain 1.1",
    ),
    (
        "Content-Type: multipart/digest; boundary=\"d\"\n\n--d\n\nSubject: a\n\nx\n--d\nContent-Type: text/plain\n\ny\n--d--\n",
        "1 message/rfc822 13;1.1 text/plain 1;2 text/plain 1;plain 2",
    ),
    (
        "Content-Type: multipart/digest; boundary=\"d\"\n\n--d\nContent-Type: multipart/digest; boundary=\"e\"\n\n--e\n\nx\n--e--\n\n--d--\n",
        "1 multipart/digest 13;1.1 message/rfc822 1;1.1.1 text/plain 0;nothing",
    ),
    (
        "Content-Type: multipart/digest; boundary=\"d\"\n\n--d\n\n--d\n\n\n--d--\n",
        "1 message/rfc822 0;1.1 text/plain 0;2 message/rfc822 0;2.1 text/plain 0;nothing",
    ),
    (
        "Content-Type: message/rfc822\n\nContent-Type: message/rfc822\n\nContent-Type: multipart/mixed; boundary=\"a\"\n\n--a\n\nx\n--a--\n",
        "1 message/rfc822 88;1.1 message/rfc822 58;1.1.1 text/plain 1;nothing",
    ),
    (
        "Content-Type: message/rfc822\n\nContent-Type: text/html\n\n<p>",
        "1 message/rfc822 28;1.1 text/html 3;nothing",
    ),
    (
        "Content-Type: message/rfc822\n",
        "1 message/rfc822 0;1.1 text/plain 0;nothing",
    ),
    (
        "Content-Type: message/partial\n\nx",
        "1 message/partial 1;nothing",
    ),
    (
        "Content-Type: Message/RFC822\nContent-Transfer-Encoding: base64\n\nSubject: a\n\nx",
        "1 message/rfc822 13;1.1 text/plain 1;nothing",
    ),
    (
        "Content-Type: multipart/mixed; boundary=\"a\"\n\n--a\nContent-Type: message/rfc822\n\nContent-Type: multipart/mixed; boundary=\"b\"\n\n--b\n\nx\n--b\n\ny\n--b--\n\n--a\n\nz\n--a--\n",
        "1 message/rfc822 65;1.1 text/plain 1;1.2 text/plain 1;2 text/plain 1;plain 2",
    ),
    (
        "Content-Transfer-Encoding: x-uu\n\nx",
        "1 application/octet-stream 1;nothing",
    ),
    (
        "Content-Transfer-Encoding: BASE64\n\neA==",
        "1 text/plain 4;plain 1",
    ),
    ("Content-Transfer-Encoding:\n\nx", "1 text/plain 1;plain 1"),
    (
        "Content-Transfer-Encoding: x\nContent-Type: multipart/mixed; boundary=\"a\"\n\n--a\n\nx\n--a--\n",
        "1 text/plain 1;plain 1",
    ),
    (
        "Content-Type: multipart/alternative; boundary=\"a\"\n\n--a\n\nx\n--a\nContent-Type: text/html\n\n<p>\n--a--\n",
        "1 text/plain 1;2 text/html 3;html 2",
    ),
    (
        "Content-Type: multipart/alternative; boundary=\"a\"\n\n--a\nContent-Type: text/html\n\n<p>\n--a\n\nx\n--a--\n",
        "1 text/html 3;2 text/plain 1;plain 2",
    ),
    (
        "Content-Type: multipart/alternative; boundary=\"a\"\n\n--a\nContent-Type: multipart/alternative; boundary=\"b\"\n\n--b\n\n1\n--b\n\n2\n--b--\n\n--a\nContent-Type: multipart/alternative; boundary=\"c\"\n\n--c\n\n3\n--c\n\n4\n--c--\n\n--a--\n",
        "1 multipart/alternative 20;1.1 text/plain 1;1.2 text/plain 1;2 multipart/alternative 20;2.1 text/plain 1;2.2 text/plain 1;plain 2.2",
    ),
    (
        "Content-Type: multipart/alternative; boundary=\"a\"\n\n--a\n\n0\n--a\nContent-Type: multipart/mixed; boundary=\"b\"\n\n--b\n\n1\n--b\n\n2\n--b--\n\n--a--\n",
        "1 text/plain 1;2 multipart/mixed 20;2.1 text/plain 1;2.2 text/plain 1;plain 2.1",
    ),
    (
        "Content-Type: multipart/alternative; boundary=\"a\"\n\n--a\nContent-Type: multipart/mixed; boundary=\"b\"\n\n--b\n\n1\n--b\n\n2\n--b--\n\n--a\nContent-Type: x/y\n\n0\n--a--\n",
        "1 multipart/mixed 20;1.1 text/plain 1;1.2 text/plain 1;2 x/y 1;plain 1.1",
    ),
    (
        "Content-Type: multipart/alternative; boundary=\"a\"\n\n--a\n\nx\n--a\nContent-Type: text/html; charset=x\n\ny\n--a--\n",
        "1 text/plain 1;2 text/html 1;plain 1",
    ),
    (
        "Content-Type: multipart/mixed; boundary=\"a\"\n\n--a\nContent-Disposition: attachment\n\nx\n--a\nContent-Type: text/html\n\n<p>\n--a--\n",
        "1 text/plain 1;2 text/html 3;html 2",
    ),
    (
        "Content-Type: text/plain; charset=koi8-r\n\nx",
        "1 text/plain 1;unread 1",
    ),
    (
        "Content-Type: multipart/mixed; boundary=\"a\"\n\n--a\nContent-Type: text/plain; charset=\"\"\n\nx\n--a\nContent-Type: text/html; charset=x\n\ny\n--a--\n",
        "1 text/plain 1;2 text/html 1;unread 1",
    ),
    (
        "Content-Type: TEXT/Plain; FORMAT=flowed; DelSp=\"YES\"\n\nx",
        "1 text/plain 1;flowed+delsp 1",
    ),
    (
        "Content-Type: text/plain; format=flowed\n\nx",
        "1 text/plain 1;flowed 1",
    ),
    (
        "Content-Disposition: inline; filename=\"a;b\\\"c\"; filename=d\nContent-Type: text/plain; name=e\n\nx",
        "1 text/plain 1;plain 1",
    ),
    (
        "Content-Type: text/html;;;= ; =x;charset\n\nx",
        "1 text/html 1;html 1",
    ),
];

#[test]
fn reads_malformed_messages(rt: HostRuntime) -> Result<(), Fail> {
    let alloc = rt.alloc();
    for (message, want) in MESSAGES {
        let text = listed(alloc, message.as_bytes())?;
        assert_eq!(rt; text.as_str(), want, "{message:?}");
    }
    Ok(())
}

/// So many multiparts, each in the one before, with a text in the last.
fn nested(alloc: Global, depth: u8) -> Result<String, Memory> {
    let mut text = String::new(alloc);
    for level in 0..depth {
        write!(
            text,
            "Content-Type: multipart/mixed; boundary=b{level}\n\n--b{level}\n"
        )?;
    }
    text.push_str("\nx")?;
    Ok(text)
}

/// A multipart with `count` parts of one byte.
fn flat(alloc: Global, count: u16) -> Result<String, Memory> {
    let mut text = String::from_str(alloc, "Content-Type: multipart/mixed; boundary=a\n\n")?;
    for _ in 0..count {
        text.push_str("--a\n\nx\n")?;
    }
    Ok(text)
}

/// How many parts a message has, and the type of the last.
fn counted(alloc: Global, message: &str) -> Result<String, Memory> {
    let read = tree(alloc, message.as_bytes())?;
    let count = read.parts().len();
    match read.parts() {
        [.., last] => {
            let mime = last.mime();
            format!(in alloc; "{count} {mime}")
        }
        [] => format!(in alloc; "{count}"),
    }
}

#[test]
fn opens_to_its_limits(rt: HostRuntime) -> Result<(), Fail> {
    let alloc = rt.alloc();
    for (depth, want) in [
        (31, "31 text/plain"),
        (33, "33 text/plain"),
        (34, "33 application/octet-stream"),
        (60, "33 application/octet-stream"),
    ] {
        let message = nested(alloc, depth)?;
        let text = counted(alloc, &message)?;
        assert_eq!(rt; text.as_str(), want, "{depth}");
    }
    for (count, want) in [
        (999, "999 text/plain"),
        (1000, "1000 text/plain"),
        (1001, "1 application/octet-stream"),
    ] {
        let message = flat(alloc, count)?;
        let text = counted(alloc, &message)?;
        assert_eq!(rt; text.as_str(), want, "{count}");
    }
    Ok(())
}

#[test]
fn lends_the_fields_of_a_message(rt: HostRuntime) -> Result<(), Fail> {
    let alloc = rt.alloc();
    let read = tree(alloc, b"Subject: a\nTo: b\n\nbody")?;
    let fields = read.fields();
    assert_eq!(rt; fields.len(), 2);
    assert_eq!(rt; fields.body_at(), 18);
    let field = fields.first("to").ok_or("no field")?;
    assert_eq!(rt; field.name(), b"To".as_slice());
    Ok(())
}

/// What each call says of a part.
fn described(alloc: Global, part: &Part<'_>) -> Result<String, Memory> {
    let mut text = String::new(alloc);
    let (charset, coding, name) = (part.charset(), part.coding(), part.name());
    write!(text, "{charset} {coding:?} {name}")?;
    if let Some(id) = part.id() {
        let id = String::from_utf8_lossy(alloc, id)?;
        write!(text, " <{id}>")?;
    }
    if let Some(location) = part.location() {
        write!(text, " at {location}")?;
    }
    let (format, leaf) = (part.format(), part.is_leaf());
    let (attached, enclosed) = (part.is_attached(), part.is_enclosed());
    let body = String::from_utf8_lossy(alloc, part.bytes())?;
    write!(text, " {format:?} {leaf} {attached} {enclosed} {body}")?;
    Ok(text)
}

#[test]
fn tells_what_a_header_says(rt: HostRuntime) -> Result<(), Fail> {
    let alloc = rt.alloc();
    let message =
        b"Content-Type: multipart/mixed; boundary=a\n\n--a\nContent-Type: text/plain; charset=ISO-8859-1; format=flowed; name=n\nContent-Transfer-Encoding: Quoted-Printable\nContent-Disposition: attachment; filename=\"caf\xc3\xa9\"\nContent-ID: <i@n>\nContent-Location: http://l.example/ \n\nx=\n--a\nContent-Type: message/rfc822\nContent-ID: <>\n\n\ny\n--a--\n";
    let read = tree(alloc, message)?;
    assert!(rt; !read.is_alternative());
    for (number, want) in [
        (
            1,
            "ISO-8859-1 Quoted caf\u{e9} <i@n> at http://l.example/ Some(false) true true false x=",
        ),
        (2, "utf-8 Plain  <> None false false false \ny"),
        (3, "none"),
    ] {
        let text = match part(&read, &Section::first(number)) {
            Some(part) => described(alloc, part)?,
            None => String::from_str(alloc, "none")?,
        };
        assert_eq!(rt; text.as_str(), want, "{number}");
    }
    Ok(())
}
