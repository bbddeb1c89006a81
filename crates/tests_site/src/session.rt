//! Pages of messages in a session.
use mail_io::{Memory, MemorySink};
use mail_pages::{Address, Frame, Section, Text, WRITE_ROOM, show_page, write_page};
use std::alloc::Global;
use std::test::Fail;

/// A plain text beside HTML with a picture of the message itself and a remote one.
const PICTURES: &str = "Subject: t\r\nContent-Type: multipart/alternative; boundary=a\r\n\r\n\
--a\r\n\r\nx\r\n--a\r\nContent-Type: multipart/related; boundary=r\r\n\r\n\
--r\r\nContent-Type: text/html\r\n\r\n<img src=cid:p@n><img src=http://t.example/o>\r\n\
--r\r\nContent-Type: image/png\r\nContent-ID: <p@n>\r\n\r\nx\r\n--r--\r\n--a--\r\n";

const OWN_PICTURE: &str = "Content-Type: text/html\r\n\r\n<p><img src=cid:p@n>";

const TITLE: &str = "Content-Type: text/html\r\n\r\n<title><img src=http://t.example/o></title>";

const BASED: &str =
    "Content-Type: text/html\r\nContent-Location: http://t.example/\r\n\r\n<img src=o>";

/// The page of the message with UID 7 in the folder `A &%`, or the reason that there is none.
fn page_of(
    alloc: Global,
    message: &str,
    section: Option<&str>,
    images: bool,
) -> Result<String, Memory> {
    let part = section.and_then(Section::parse);
    let frame = Frame::Session {
        at: Address {
            folder: Text::from_string(String::from_str(alloc, "A &%")?),
            validity: 8,
            uid: 7,
        },
        key: Text::from_string(String::from_str(alloc, "0a")?),
    };
    let Ok(page) = show_page(alloc, message.as_bytes(), &part, images, &frame) else {
        return String::from_str(alloc, "no page");
    };
    let mut sink = MemorySink::new(alloc, 8192, Vec::new(alloc))?;
    let mut room = Vec::with_capacity(alloc, WRITE_ROOM)?;
    if write_page(&mut sink, &page, &mut room).is_err() {
        return String::from_str(alloc, "not written");
    }
    String::from_utf8_lossy(alloc, sink.taken())
}

/// What a page has between two texts.
fn between<'p>(page: &'p str, start: &str, end: &str) -> &'p str {
    match page.split_once(start) {
        Some((_, rest)) => match rest.split_once(end) {
            Some((text, _)) => text,
            None => "no end",
        },
        None => "no start",
    }
}

#[test]
fn shows_a_whole_page(rt: HostRuntime) -> Result<(), Fail> {
    let page = page_of(rt.alloc(), PICTURES, None, false)?;
    assert_eq!(rt;
        page.as_str(),
        "<!DOCTYPE html>\n\
<html lang=\"en\"><head><meta charset=\"utf-8\"><title>t</title><link rel=\"stylesheet\" href=\"/site.css\"></head>\n\
<body><p class=\"nav\"><a href=\"/\">Folders</a> <a href=\"/compose\">Compose</a> <a href=\"/identities\">Identities</a></p>\n\
<h1>t</h1>\n\
<table class=\"head\"></table>\n\
<p class=\"images\"><a href=\"/show/8/7?f=A+%26%25&amp;images=1\">Show remote images</a></p>\n\
<div class=\"mail\"><img src=\"/part/8/7/2.2?f=A+%26%25\"><img></div>\n\
<ul class=\"parts\"><li><a href=\"/part/8/7/1?f=A+%26%25\">1</a> text/plain 1</li>\
<li><a href=\"/part/8/7/2.1?f=A+%26%25\">2.1</a> text/html 45</li>\
<li><a href=\"/part/8/7/2.2?f=A+%26%25\">2.2</a> image/png 1</li></ul>\n\
<form method=\"post\" action=\"/flag\"><input type=\"hidden\" name=\"key\" value=\"0a\">\
<input type=\"hidden\" name=\"f\" value=\"A &amp;%\"><input type=\"hidden\" name=\"v\" value=\"8\">\
<input type=\"hidden\" name=\"u\" value=\"7\"><input type=\"hidden\" name=\"flag\" value=\"Seen\">\
<input type=\"hidden\" name=\"on\" value=\"1\"><button>Mark as read</button></form>\
<form method=\"post\" action=\"/flag\"><input type=\"hidden\" name=\"key\" value=\"0a\">\
<input type=\"hidden\" name=\"f\" value=\"A &amp;%\"><input type=\"hidden\" name=\"v\" value=\"8\">\
<input type=\"hidden\" name=\"u\" value=\"7\"><input type=\"hidden\" name=\"flag\" value=\"Seen\">\
<input type=\"hidden\" name=\"on\" value=\"0\"><button>Mark as unread</button></form>\
<form method=\"post\" action=\"/delete\"><input type=\"hidden\" name=\"key\" value=\"0a\">\
<input type=\"hidden\" name=\"f\" value=\"A &amp;%\"><input type=\"hidden\" name=\"v\" value=\"8\">\
<input type=\"hidden\" name=\"u\" value=\"7\"><button>Delete</button></form>\
<form method=\"post\" action=\"/move\"><input type=\"hidden\" name=\"key\" value=\"0a\">\
<input type=\"hidden\" name=\"f\" value=\"A &amp;%\"><input type=\"hidden\" name=\"v\" value=\"8\">\
<input type=\"hidden\" name=\"u\" value=\"7\"><input type=\"text\" name=\"to\" value=\"\"><button>Move</button></form>\n\
</body></html>\n"
    );
    Ok(())
}

#[test]
fn offers_remote_images_that_change_something(rt: HostRuntime) -> Result<(), Fail> {
    let alloc = rt.alloc();
    for (message, section, images, offer) in [
        (
            PICTURES,
            Some("2.1"),
            false,
            "<p class=\"images\"><a href=\"/show/8/7?f=A+%26%25&amp;part=2.1&amp;images=1\">Show remote images</a></p>\n",
        ),
        (
            BASED,
            None,
            false,
            "<p class=\"images\"><a href=\"/show/8/7?f=A+%26%25&amp;images=1\">Show remote images</a></p>\n",
        ),
        (PICTURES, None, true, ""),
        (PICTURES, Some("1"), false, ""),
        (OWN_PICTURE, None, false, ""),
        (TITLE, None, false, ""),
    ] {
        let page = page_of(alloc, message, section, images)?;
        assert_eq!(rt;
            between(&page, "</table>\n", "<div class=\"mail\">"),
            offer,
            "{message}"
        );
    }
    Ok(())
}

#[test]
fn shows_pictures_by_the_message_in_its_folder(rt: HostRuntime) -> Result<(), Fail> {
    let alloc = rt.alloc();
    for (section, images, mail) in [
        (None, false, "<img src=\"/part/8/7/2.2?f=A+%26%25\"><img>"),
        (
            Some("2.1"),
            true,
            "<img src=\"/part/8/7/2.2?f=A+%26%25\"><img src=\"http://t.example/o\">",
        ),
        (Some("1"), true, "<pre>\nx</pre>"),
    ] {
        let page = page_of(alloc, PICTURES, section, images)?;
        assert_eq!(rt; between(&page, "<div class=\"mail\">", "</div>\n"), mail);
    }
    Ok(())
}

#[test]
fn has_no_page_of_a_picture(rt: HostRuntime) -> Result<(), Fail> {
    let page = page_of(rt.alloc(), PICTURES, Some("2.2"), false)?;
    assert_eq!(rt; page.as_str(), "no page");
    Ok(())
}
