//! Runs of `show`: its pages, faults and statuses.
use mail_io::{Bytes, Memory, MemorySink, MemorySource};
use mail_pages::{Frame, show_page};
use std::alloc::Global;
use std::test::Fail;
use webmail_runs::{
    DONE, LIMIT, NO_SUCH_PART, NOT_BUILT, OUT_OF_MEMORY, READ_FAULT, Status, TOO_LONG, WRITE_FAULT,
    WRONG_WORDS, run_show, status_line,
};

/// A message of an attached document and an attached text.
const ATTACHMENTS: &[u8] = b"Content-Type: multipart/mixed; boundary=b\r\n\r\n\
--b\r\nContent-Type: application/pdf; name=\"<b>.pdf\"\r\nContent-Transfer-Encoding: base64\r\n\r\nAAAA\r\n\
--b\r\nContent-Disposition: attachment; filename=\"=?utf-8?Q?=C3=A9.txt?=\"\r\n\r\nx\r\n--b--\r\n";

/// A text, and a message in the message.
const FORWARDED: &[u8] = b"Content-Type: multipart/mixed; boundary=b\r\n\r\n--b\r\n\r\none\r\n\
--b\r\nContent-Type: message/rfc822\r\n\r\nSubject: in\r\n\r\ninner\r\n--b--\r\n";

/// A text of a charset that isn't read, and a picture.
const UNREAD: &[u8] = b"Content-Type: multipart/mixed; boundary=b\r\n\r\n\
--b\r\nContent-Type: text/plain; charset=\"<i>\"\r\n\r\nx\r\n\
--b\r\nContent-Type: image/png\r\n\r\ny\r\n--b--\r\n";

/// A newsletter: a plain text beside a page with two pictures.
const NEWSLETTER: &[u8] = b"From: \"College News\" <news@c.example>\r\n\
To: ann@c.example\r\n\
Subject: =?utf-8?Q?Caf=C3=A9_week?=\r\n\
Date: Mon, 5 Jan 2026 09:00:00 +0000\r\n\
MIME-Version: 1.0\r\n\
Content-Type: multipart/alternative; boundary=\"a1\"\r\n\
\r\n\
--a1\r\n\
Content-Type: text/plain; charset=utf-8\r\n\
\r\n\
Cafe week\r\n\
--a1\r\n\
Content-Type: multipart/related; boundary=\"r1\"\r\n\
\r\n\
--r1\r\n\
Content-Type: text/html; charset=utf-8\r\n\
Content-Transfer-Encoding: quoted-printable\r\n\
\r\n\
<html><head><style>p{color:red}</style></head><body bgcolor=3D\"#fff\"><table=\r\n\
\x20width=3D\"600\"><tr><td><img src=3D\"cid:top@n\" width=3D600 height=3D80><p cl=\r\n\
ass=3D\"x\" style=3D\"color:#333;margin:0 0 10px\">Caf=C3=A9</p><img src=3D\"htt=\r\n\
p://t.example/o\"><img src=3D\"cid:foot@n\"></td></tr></table></body></html>\r\n\
--r1\r\n\
Content-Type: image/png; name=\"top.png\"\r\n\
Content-ID: <top@n>\r\n\
Content-Transfer-Encoding: base64\r\n\
\r\n\
iVBORw==\r\n\
--r1\r\n\
Content-Type: image/gif\r\n\
Content-ID: <foot@n>\r\n\
Content-Transfer-Encoding: base64\r\n\
\r\n\
R0lGODlh\r\n\
--r1--\r\n\
--a1--\r\n\
";

/// A run: how it ended, and what it wrote.
#[derive(Drop)]
struct Run {
    status: Status,
    page: String,
}

/// Runs on a message, with reads and writes of these numbers failing, into a sink of this room.
fn run_on(
    alloc: Global,
    words: &[&str],
    message: Vec<u8>,
    failing_reads: &[u64],
    failing_writes: &[u64],
    room: usize,
) -> Result<Run, Memory> {
    let mut given = Vec::new(alloc);
    for word in words {
        given.push(String::from_str(alloc, word)?)?;
    }
    let mut source = MemorySource::new(
        Bytes::from_vec(message),
        Vec::from_slice(alloc, failing_reads)?,
    );
    let mut sink = MemorySink::new(alloc, room, Vec::from_slice(alloc, failing_writes)?)?;
    let status = run_show(alloc, &given, &mut source, &mut sink);
    let page = String::from_utf8_lossy(alloc, sink.taken())?;
    Ok(Run { status, page })
}

/// A body of `count` line feeds.
fn lines_of(alloc: Global, count: usize) -> Result<Vec<u8>, Memory> {
    let mut message = Vec::with_capacity(alloc, count)?;
    for _ in 0..count {
        message.push(b'\n')?;
    }
    Ok(message)
}

/// The page of a message with this title, these rows, what is shown, and the items of its list of parts.
fn framed(
    alloc: Global,
    title: &str,
    rows: &str,
    mail: &str,
    items: &str,
) -> Result<String, Memory> {
    let mut page = String::from_str(
        alloc,
        "<!DOCTYPE html>\n<html lang=\"en\"><head><meta charset=\"utf-8\"><title>",
    )?;
    page.push_str(title)?;
    page.push_str("</title><link rel=\"stylesheet\" href=\"/site.css\"></head>\n<body><h1>")?;
    page.push_str(title)?;
    page.push_str("</h1>\n<table class=\"head\">")?;
    page.push_str(rows)?;
    page.push_str("</table>\n<div class=\"mail\">")?;
    page.push_str(mail)?;
    page.push_str("</div>\n<ul class=\"parts\">")?;
    page.push_str(items)?;
    page.push_str("</ul>\n</body></html>\n")?;
    Ok(page)
}

/// The page of a plain message.
fn plain_page(
    alloc: Global,
    title: &str,
    rows: &str,
    text: &str,
    size: usize,
) -> Result<String, Memory> {
    let mut mail = String::new(alloc);
    write!(mail, "<pre>\n{text}</pre>")?;
    let mut items = String::new(alloc);
    write!(
        items,
        "<li><a href=\"/part/0/0/1?f=\">1</a> text/plain {size}</li>"
    )?;
    framed(alloc, title, rows, &mail, &items)
}

#[test]
fn shows_plain_messages(rt: HostRuntime) -> Result<(), Fail> {
    let alloc = rt.alloc();
    for (message, title, rows, text, size) in [
        (
            b"Subject: t\r\n\r\n<script>alert(1)</script> & \"x\"".as_slice(),
            "t",
            "",
            "&lt;script&gt;alert(1)&lt;/script&gt; &amp; &quot;x&quot;",
            31,
        ),
        (b"".as_slice(), "(no subject)", "", "", 0),
        (
            b"Subject: \t \r\n\r\nx".as_slice(),
            "(no subject)",
            "",
            "x",
            1,
        ),
        (
            b"To: b@x\r\nFrom: \"A\" <a@x>\r\nsubject: a\r\n\tb\r\nDate: d\r\nTO: c@x\r\nCC:\r\n\r\nline\r\nlone\rend\r\n".as_slice(),
            "a b",
            "<tr><th>From</th><td>&quot;A&quot; &lt;a@x&gt;</td></tr><tr><th>To</th><td>b@x</td></tr><tr><th>Cc</th><td></td></tr><tr><th>Date</th><td>d</td></tr>",
            "line\nlone\nend\n",
            16,
        ),
        (
            b"Subject: =?utf-8?Q?Caf=C3=A9_?=\r\n =?utf-8?Q?week?=\r\nFrom: =?iso-8859-1?B?SnVs6Q==?= <j@x>\r\n\r\n".as_slice(),
            "Caf\u{E9} week",
            "<tr><th>From</th><td>Jul\u{E9} &lt;j@x&gt;</td></tr>",
            "",
            0,
        ),
        (
            b"content-TYPE: text/plain\n\nx".as_slice(),
            "(no subject)",
            "",
            "x",
            1,
        ),
        (
            b"\n\r\r\n\x00\xff</pre>".as_slice(),
            "(no subject)",
            "",
            "\n\n\u{FFFD}\u{FFFD}&lt;/pre&gt;",
            11,
        ),
        (
            b"Subject: a\rb</title>\r\n\r\n".as_slice(),
            "a&#13;b&lt;/title&gt;",
            "",
            "",
            0,
        ),
    ] {
        let want = plain_page(alloc, title, rows, text, size)?;
        let run = run_on(
            alloc,
            &["show"],
            Vec::from_slice(alloc, message)?,
            &[],
            &[],
            4096,
        )?;
        assert_eq!(rt; run.status, DONE, "{title}");
        assert_eq!(rt; run.page.as_str(), want.as_str());
    }
    Ok(())
}

#[test]
fn shows_parts(rt: HostRuntime) -> Result<(), Fail> {
    let alloc = rt.alloc();
    for (words, message, title, rows, mail, items) in [
        (
            ["show"].as_slice(),
            b"Content-Type: text/plain; charset=iso-8859-1\r\nContent-Transfer-Encoding: quoted-printable\r\n\r\ncaf=e9 =3d 1=\r\n0".as_slice(),
            "(no subject)",
            "",
            "<pre>\ncaf\u{E9} = 10</pre>",
            "<li><a href=\"/part/0/0/1?f=\">1</a> text/plain 16</li>",
        ),
        (
            ["show"].as_slice(),
            b"Content-Type: text/plain; charset=windows-1252\r\n\r\n\x93a\x94".as_slice(),
            "(no subject)",
            "",
            "<pre>\n\u{201C}a\u{201D}</pre>",
            "<li><a href=\"/part/0/0/1?f=\">1</a> text/plain 3</li>",
        ),
        (
            ["show"].as_slice(),
            b"Content-Type: text/plain; charset=ISO-8859-15\r\n\r\n\xA4".as_slice(),
            "(no subject)",
            "",
            "<pre>\n\u{20AC}</pre>",
            "<li><a href=\"/part/0/0/1?f=\">1</a> text/plain 1</li>",
        ),
        (
            ["show", "--part", "1"].as_slice(),
            b"Content-Type: text/plain; charset=koi8-r\r\n\r\nx".as_slice(),
            "(no subject)",
            "",
            "<p>Charset koi8-r is not read here; part 1 is offered below.</p>",
            "<li><a href=\"/part/0/0/1?f=\">1</a> text/plain 1</li>",
        ),
        (
            ["show", "--part", "1"].as_slice(),
            b"Subject: t\r\n\r\nx".as_slice(),
            "t",
            "",
            "<pre>\nx</pre>",
            "<li><a href=\"/part/0/0/1?f=\">1</a> text/plain 1</li>",
        ),
        (
            ["show", "--part", "1"].as_slice(),
            NEWSLETTER,
            "Caf\u{E9} week",
            "<tr><th>From</th><td>&quot;College News&quot; &lt;news@c.example&gt;</td></tr><tr><th>To</th><td>ann@c.example</td></tr><tr><th>Date</th><td>Mon, 5 Jan 2026 09:00:00 +0000</td></tr>",
            "<pre>\nCafe week</pre>",
            "<li><a href=\"/part/0/0/1?f=\">1</a> text/plain 9</li><li><a href=\"/part/0/0/2.1?f=\">2.1</a> text/html 307</li><li><a href=\"/part/0/0/2.2?f=\">2.2</a> image/png top.png 8</li><li><a href=\"/part/0/0/2.3?f=\">2.3</a> image/gif 8</li>",
        ),
        (
            ["show"].as_slice(),
            NEWSLETTER,
            "Caf\u{E9} week",
            "<tr><th>From</th><td>&quot;College News&quot; &lt;news@c.example&gt;</td></tr><tr><th>To</th><td>ann@c.example</td></tr><tr><th>Date</th><td>Mon, 5 Jan 2026 09:00:00 +0000</td></tr>",
            "<table width=\"600\"><tr><td><img src=\"/part/0/0/2.2?f=\" width=\"600\" height=\"80\"><p style=\"color: red; color: #333; margin: 0 0 10px\">Caf\u{E9}</p><img><img src=\"/part/0/0/2.3?f=\"></td></tr></table>",
            "<li><a href=\"/part/0/0/1?f=\">1</a> text/plain 9</li><li><a href=\"/part/0/0/2.1?f=\">2.1</a> text/html 307</li><li><a href=\"/part/0/0/2.2?f=\">2.2</a> image/png top.png 8</li><li><a href=\"/part/0/0/2.3?f=\">2.3</a> image/gif 8</li>",
        ),
        (
            ["show", "--images"].as_slice(),
            NEWSLETTER,
            "Caf\u{E9} week",
            "<tr><th>From</th><td>&quot;College News&quot; &lt;news@c.example&gt;</td></tr><tr><th>To</th><td>ann@c.example</td></tr><tr><th>Date</th><td>Mon, 5 Jan 2026 09:00:00 +0000</td></tr>",
            "<table width=\"600\"><tr><td><img src=\"/part/0/0/2.2?f=\" width=\"600\" height=\"80\"><p style=\"color: red; color: #333; margin: 0 0 10px\">Caf\u{E9}</p><img src=\"http://t.example/o\"><img src=\"/part/0/0/2.3?f=\"></td></tr></table>",
            "<li><a href=\"/part/0/0/1?f=\">1</a> text/plain 9</li><li><a href=\"/part/0/0/2.1?f=\">2.1</a> text/html 307</li><li><a href=\"/part/0/0/2.2?f=\">2.2</a> image/png top.png 8</li><li><a href=\"/part/0/0/2.3?f=\">2.3</a> image/gif 8</li>",
        ),
        (
            ["show"].as_slice(),
            ATTACHMENTS,
            "(no subject)",
            "",
            "<p>No text to show.</p>",
            "<li><a href=\"/part/0/0/1?f=\">1</a> application/pdf &lt;b&gt;.pdf 4</li><li><a href=\"/part/0/0/2?f=\">2</a> text/plain \u{E9}.txt 1</li>",
        ),
        (
            ["show", "--part", "2"].as_slice(),
            ATTACHMENTS,
            "(no subject)",
            "",
            "<pre>\nx</pre>",
            "<li><a href=\"/part/0/0/1?f=\">1</a> application/pdf &lt;b&gt;.pdf 4</li><li><a href=\"/part/0/0/2?f=\">2</a> text/plain \u{E9}.txt 1</li>",
        ),
        (
            ["show", "--part", "2.1"].as_slice(),
            FORWARDED,
            "(no subject)",
            "",
            "<pre>\ninner</pre>",
            "<li><a href=\"/part/0/0/1?f=\">1</a> text/plain 3</li><li><a href=\"/part/0/0/2.1?f=\">2.1</a> text/plain 5</li>",
        ),
        (
            ["show"].as_slice(),
            UNREAD,
            "(no subject)",
            "",
            "<p>Charset &lt;i&gt; is not read here; part 1 is offered below.</p>",
            "<li><a href=\"/part/0/0/1?f=\">1</a> text/plain 1</li><li><a href=\"/part/0/0/2?f=\">2</a> image/png 1</li>",
        ),
    ] {
        let want = framed(alloc, title, rows, mail, items)?;
        let message = Vec::from_slice(alloc, message)?;
        let run = run_on(alloc, words, message, &[], &[], 4096)?;
        assert_eq!(rt; run.status, DONE, "{mail}");
        assert_eq!(rt; run.page.as_str(), want.as_str());
    }
    Ok(())
}

#[test]
fn answers_faults(rt: HostRuntime) -> Result<(), Fail> {
    let alloc = rt.alloc();
    let plain = b"Subject: t\r\n\r\nx".as_slice();
    for (reads, writes, room, status) in [
        ([1], [0], 4096, READ_FAULT),
        ([2], [0], 4096, READ_FAULT),
        ([2], [1], 4096, READ_FAULT),
        ([0], [1], 4096, WRITE_FAULT),
        ([0], [0], 10, WRITE_FAULT),
    ] {
        let message = Vec::from_slice(alloc, plain)?;
        let run = run_on(alloc, &["show"], message, &reads, &writes, room)?;
        assert_eq!(rt; run.status, status, "reads {reads:?}, writes {writes:?}");
        assert_eq!(rt; run.page.len(), 0, "reads {reads:?}, writes {writes:?}");
    }
    Ok(())
}

#[test]
fn answers_wrong_words(rt: HostRuntime) -> Result<(), Fail> {
    let alloc = rt.alloc();
    for (words, why) in [
        ([].as_slice(), "no word"),
        (["shown"].as_slice(), "another word"),
        (["show", "--part"].as_slice(), "no section"),
        (["show", "show"].as_slice(), "a word too many"),
        (["--part", "1", "show"].as_slice(), "the wrong order"),
        (["show", "--parts", "1"].as_slice(), "another option"),
        (["show", "--part", "0"].as_slice(), "a part of no number"),
        (
            ["show", "--part", "1.02"].as_slice(),
            "a number with a zero first",
        ),
        (["show", "--part", "1", "1"].as_slice(), "a fourth word"),
        (
            ["show", "--images", "--images"].as_slice(),
            "an option twice",
        ),
        (
            ["show", "--part", "--images", "1"].as_slice(),
            "an option before its section",
        ),
        (
            ["show", "--part", "1", "--part", "1"].as_slice(),
            "a part twice",
        ),
        (
            ["show", "--images", "--part", "1", "--images"].as_slice(),
            "a word too many",
        ),
        (["--images", "show"].as_slice(), "an option first"),
    ] {
        // nothing is read, so a source that fails isn't told
        let run = run_on(alloc, words, Vec::new(alloc), &[1], &[], 4096)?;
        assert_eq!(rt; run.status, WRONG_WORDS, "{why}");
        assert_eq!(rt; run.page.len(), 0, "{why}");
    }
    Ok(())
}

#[test]
fn answers_parts_that_are_not_shown(rt: HostRuntime) -> Result<(), Fail> {
    let alloc = rt.alloc();
    for (section, message, status) in [
        ("9", b"Subject: t\r\n\r\nx".as_slice(), NO_SUCH_PART),
        ("2", NEWSLETTER, NO_SUCH_PART),
        ("2.2", NEWSLETTER, NO_SUCH_PART),
        ("2", FORWARDED, NO_SUCH_PART),
        ("1", ATTACHMENTS, NO_SUCH_PART),
    ] {
        let message = Vec::from_slice(alloc, message)?;
        let run = run_on(
            alloc,
            &["show", "--part", section],
            message,
            &[],
            &[1],
            4096,
        )?;
        assert_eq!(rt; run.status, status, "{section}");
        assert_eq!(rt; run.page.len(), 0, "{section}");
    }
    Ok(())
}

#[test]
fn reads_up_to_the_limit(rt: HostRuntime) -> Result<(), Fail> {
    let alloc = rt.alloc();
    let run = run_on(alloc, &["show"], lines_of(alloc, LIMIT)?, &[], &[], 10)?;
    assert_eq!(rt;
        run.status,
        WRITE_FAULT,
        "read whole, and too large for the sink"
    );
    let run = run_on(alloc, &["show"], lines_of(alloc, LIMIT + 1)?, &[], &[], 10)?;
    assert_eq!(rt; run.status, TOO_LONG);
    Ok(())
}

#[test]
fn says_what_is_wrong(rt: HostRuntime) -> Result<(), Fail> {
    for (status, line) in [
        (DONE, ""),
        (1, ""),
        (WRONG_WORDS, "webmail: wrong words"),
        (READ_FAULT, "webmail: read fault"),
        (WRITE_FAULT, "webmail: write fault"),
        (OUT_OF_MEMORY, "webmail: out of memory"),
        (TOO_LONG, "webmail: message too long"),
        (NOT_BUILT, "webmail: not built"),
        (NO_SUCH_PART, "webmail: no such part"),
        (255, ""),
    ] {
        assert_eq!(rt; status_line(status), line, "{status}");
    }
    let alloc = rt.alloc();
    let message = b"\nx".as_slice();
    assert!(rt; show_page(alloc, message, &None, false, &Frame::Plain).is_ok());
    Ok(())
}
