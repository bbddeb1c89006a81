//! Runs of `show` on HTML: what is shown of a message.
use crate::mails::{push_times, run_on};
use mail_io::Memory;
use std::alloc::Global;
use std::test::Fail;
use webmail_runs::DONE;

/// The newsletter up to its page's header.
const NEWSLETTER_START: &str = "From: \"College News\" <news@c.example>\r\n\
To: ann@c.example\r\n\
Subject: =?utf-8?Q?Caf=C3=A9_week?=\r\n\
Content-Type: multipart/alternative; boundary=\"a1\"\r\n\
\r\n\
--a1\r\n\
Content-Type: text/plain; charset=utf-8\r\n\
\r\n\
Cafe week\r\n\
--a1\r\n\
Content-Type: multipart/related; boundary=\"r1\"\r\n\
\r\n\
--r1\r\n\
Content-Type: text/html; charset=utf-8\r\n";

/// The newsletter's page, quoted-printable.
const NEWSLETTER_PAGE: &str = "Content-Transfer-Encoding: quoted-printable\r\n\
\r\n\
<html><head><style>p{color:red}</style></head><body bgcolor=3D\"#fff\"><table=\r\n\
\x20width=3D\"600\"><tr><td><img src=3D\"cid:top@n\" width=3D600 height=3D80><p cl=\r\n\
ass=3D\"x\" style=3D\"color:#333;margin:0 0 10px\">Caf=C3=A9</p><img src=3D\"htt=\r\n\
p://t.example/o\"><img src=3D\"cid:foot@n\"></td></tr></table></body></html>";

/// Another page in its place.
const PICTURES_PAGE: &str = "Content-Transfer-Encoding: 7bit\r\n\
\r\n\
<img src=x onerror=alert(1)><IMG SRC=\"cid:top%40n\" src=\"http://e.example/\">";

/// The newsletter's pictures.
const NEWSLETTER_END: &str = "\r\n\
--r1\r\n\
Content-Type: image/png; name=\"top.png\"\r\n\
Content-ID: <top@n>\r\n\
Content-Transfer-Encoding: base64\r\n\
\r\n\
iVBORw==\r\n\
--r1\r\n\
Content-Type: image/gif\r\n\
Content-ID: <foot@n>\r\n\
Content-Transfer-Encoding: base64\r\n\
\r\n\
R0lGODlh\r\n\
--r1--\r\n\
--a1--\r\n";

/// The message of one HTML part.
fn html_message(alloc: Global, html: &str) -> Result<String, Memory> {
    let mut message = String::from_str(alloc, "Content-Type: text/html; charset=utf-8\r\n\r\n")?;
    message.push_str(html)?;
    Ok(message)
}

/// The newsletter with a page.
fn newsletter(alloc: Global, page: &str) -> Result<String, Memory> {
    let mut message = String::from_str(alloc, NEWSLETTER_START)?;
    message.push_str(page)?;
    message.push_str(NEWSLETTER_END)?;
    Ok(message)
}

#[test]
fn washes_html(rt: HostRuntime) -> Result<(), Fail> {
    let alloc = rt.alloc();
    for (html, want) in [
        ("<scr<script>ipt>x</script>y", "ipt&gt;xy"),
        (
            "<a href=\"jav&#9;ascript:1\">t</a><a href=\" HTTPS://E.example/a b\">u</a>",
            "<a>t</a><a href=\"https://e.example/a%20b\" rel=\"noopener noreferrer\" target=\"_blank\">u</a>",
        ),
        ("<!--><b>x</b><!-- --!><i>y", "<b>x</b><i>y</i>"),
        (
            "</div></div><p>a<p>b<table><tr><td>1<td>2</table>",
            "<p>a</p><p>b</p><table><tr><td>1</td><td>2</td></tr></table>",
        ),
        (
            "<b title='\"&gt;&notanentity; &copy=1'>&#13;&#0;&#128;</b>",
            "<b title=\"&quot;&gt;&amp;notanentity; &amp;copy=1\">&#13;\u{FFFD}\u{20AC}</b>",
        ),
        (
            "<p style=\"color:red;background:url(x);width:expression(1);font-family:'A B'\">t</p>",
            "<p style=\"color: red; font-family: 'A B'\">t</p>",
        ),
        ("a\r\nb\rc", "a\nb\nc"),
        ("", ""),
    ] {
        let run = run_on(alloc, &["show"], html_message(alloc, html)?)?;
        assert_eq!(rt; run.status, DONE, "{html}");
        assert_eq!(rt; run.mail.as_str(), want);
    }
    Ok(())
}

#[test]
fn shows_pictures(rt: HostRuntime) -> Result<(), Fail> {
    let alloc = rt.alloc();
    let unasked =
        "<table width=\"600\"><tr><td><img src=\"/part/0/0/2.2?f=\" width=\"600\" height=\"80\"><p style=\"color: red; color: #333; margin: 0 0 10px\">Caf\u{E9}</p><img><img src=\"/part/0/0/2.3?f=\"></td></tr></table>";
    let asked =
        "<table width=\"600\"><tr><td><img src=\"/part/0/0/2.2?f=\" width=\"600\" height=\"80\"><p style=\"color: red; color: #333; margin: 0 0 10px\">Caf\u{E9}</p><img src=\"http://t.example/o\"><img src=\"/part/0/0/2.3?f=\"></td></tr></table>";
    let pictures = "<img><img src=\"/part/0/0/2.2?f=\">";
    for (words, page, want) in [
        (["show"].as_slice(), NEWSLETTER_PAGE, unasked),
        (["show", "--images"].as_slice(), NEWSLETTER_PAGE, asked),
        (
            ["show", "--images", "--part", "2.1"].as_slice(),
            NEWSLETTER_PAGE,
            asked,
        ),
        (
            ["show", "--part", "2.1", "--images"].as_slice(),
            NEWSLETTER_PAGE,
            asked,
        ),
        (
            ["show", "--part", "2.1"].as_slice(),
            NEWSLETTER_PAGE,
            unasked,
        ),
        (["show"].as_slice(), PICTURES_PAGE, pictures),
        (["show", "--images"].as_slice(), PICTURES_PAGE, pictures),
    ] {
        let run = run_on(alloc, words, newsletter(alloc, page)?)?;
        assert_eq!(rt; run.status, DONE, "{words:?}");
        assert_eq!(rt; run.mail.as_str(), want);
    }
    Ok(())
}

/// An `x` in `count` elements.
fn nested_elements(alloc: Global, count: usize) -> Result<String, Memory> {
    let mut html = String::new(alloc);
    push_times(&mut html, "<b>", count)?;
    html.push_str("x")?;
    push_times(&mut html, "</b>", count)?;
    Ok(html)
}

#[test]
fn limits_open_elements(rt: HostRuntime) -> Result<(), Fail> {
    let alloc = rt.alloc();
    let html = nested_elements(alloc, 129)?;
    let want = nested_elements(alloc, 128)?;
    let run = run_on(alloc, &["show"], html_message(alloc, &html)?)?;
    assert_eq!(rt; run.status, DONE);
    assert_eq!(rt; run.mail.as_str(), want.as_str());
    Ok(())
}
