//! What addresses refer to in whole messages.
use cid_parts::{Memory, Ref, References, refer};
use mime_tree::tree;
use std::alloc::Global;
use std::process::Abort;
use std::test::Fail;

/// A page with two pictures below a multipart/related, and a message in the message that has the same Content-IDs.
const RELATED: &[u8] = b"Content-Type: multipart/mixed; boundary=m\n\
Content-ID: <whole@n>\n\n\
--m\nContent-Type: message/rfc822\n\n\
Content-Type: multipart/related; boundary=e\n\n\
--e\nContent-Type: text/html\n\n<img src=cid:top@n>\n\
--e\nContent-Type: image/png\nContent-ID: <top@n>\nContent-Location: http://e.example/a/inner.png\n\nx\n--e--\n\
--m\nContent-Type: multipart/related; boundary=r\nContent-ID: <related@n>\n\n\
--r\nContent-Type: text/html\nContent-Location: http://e.example/a/index.html\n\n<img src=cid:top@n>\n\
--r\nContent-Type: image/png\nContent-ID: <top@n>\nContent-Location: top.png\n\nx\n\
--r\nContent-Type: image/png\nContent-ID: <top@n>\nContent-Location: ../b/foot.png\n\nx\n--r--\n\
--m--\n";

/// The base of `RELATED`'s page.
const BASE: &str = "http://e.example/a/index.html";

/// Addresses in that page, and what they refer to.
static WITH_BASE: [&str; 28] = [
    "cid:top@n",
    "part 2.2",
    "CID:%74op@n",
    "part 2.2",
    "cid:related@n",
    "part 2",
    "cid:whole@n",
    "nothing",
    "cid:<top@n>",
    "nothing",
    "top.png",
    "part 2.2",
    "http://E.example/b/../a/top.png",
    "part 2.2",
    "/b/foot.png",
    "part 2.3",
    "inner.png",
    "remote http://e.example/a/inner.png",
    "",
    "part 2.1",
    "#end",
    "remote http://e.example/a/index.html#end",
    "mailto:a@b.example",
    "link mailto:a@b.example",
    "java\tscript:alert(1)",
    "nothing",
    "data:text/html,x",
    "nothing",
];

/// The same without a base.
static WITHOUT_BASE: [&str; 10] = [
    "cid:top@n",
    "part 2.2",
    "top.png",
    "nothing",
    "http://e.example/a/top.png",
    "remote http://e.example/a/top.png",
    " HTTPS://E.example/a b\n",
    "remote https://e.example/a%20b",
    "http://e.example/a/index.html",
    "part 2.1",
];

/// Spells what an address refers to.
fn spelled(alloc: Global, to: &Ref) -> Result<String, Memory> {
    match to {
        Ref::Part(section) => {
            let section = section.spell(alloc)?;
            format!(in alloc; "part {section}")
        }
        Ref::Remote(text) => {
            let text = text.as_str();
            format!(in alloc; "remote {text}")
        }
        Ref::Link(text) => {
            let text = text.as_str();
            format!(in alloc; "link {text}")
        }
        Ref::Nothing => String::from_str(alloc, "nothing"),
    }
}

/// Checks what addresses refer to: `rows` has an address and what it refers to, in turn.
fn check_rows(
    rt: &impl Abort,
    alloc: Global,
    references: &References<'_, '_>,
    rows: &[&str],
) -> Result<(), Fail> {
    for row in rows.chunks(2) {
        if let [address, expected] = row {
            let to = spelled(alloc, &references.refer(alloc, address)?)?;
            assert_eq!(rt; to.as_str(), *expected);
        }
    }
    Ok(())
}

#[test]
fn addresses_of_a_related_page(rt: HostRuntime) -> Result<(), Fail> {
    let alloc = rt.alloc();
    let read = tree(alloc, RELATED)?;
    let references = References::new(alloc, &read, Some(BASE))?;
    check_rows(&rt, alloc, &references, &WITH_BASE)?;
    let references = References::new(alloc, &read, None)?;
    check_rows(&rt, alloc, &references, &WITHOUT_BASE)?;
    let references = References::new(alloc, &read, Some("index.html"))?;
    check_rows(&rt, alloc, &references, &WITHOUT_BASE)
}

#[test]
fn a_page_may_name_itself(rt: HostRuntime) -> Result<(), Fail> {
    let alloc = rt.alloc();
    let message = b"Content-Type: text/html\nContent-ID: <a@b>\n\n<a href=cid:a@b>";
    let read = tree(alloc, message)?;
    let to = spelled(alloc, &refer(alloc, &read, None, "cid:a@b")?)?;
    assert_eq!(rt; to.as_str(), "part 1");
    let to = spelled(alloc, &refer(alloc, &read, None, "https://e.example")?)?;
    assert_eq!(rt; to.as_str(), "remote https://e.example/");
    Ok(())
}
