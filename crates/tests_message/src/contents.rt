use header_words::fields;
use mime_content::read_content;
use std::test::Fail;
use transfer_codings::Coding;

const FILLED: &[u8] = b"Content-Type: Text/Plain; charset=latin1; format=flowed\n\
Content-Disposition: attachment; filename=\"=?utf-8?q?=C3=A9?=.txt\"\n\
Content-ID: <a@b>\nContent-Location: http://l.example/\n\
Content-Transfer-Encoding: base64\n\n";

#[test]
fn reads_content_fields(rt: HostRuntime) -> Result<(), Fail> {
    let alloc = rt.alloc();
    let header = fields(alloc, FILLED)?;
    let content = read_content(alloc, "text/html", &header)?;
    assert_eq!(rt; content.mime.as_str(), "text/plain");
    assert_eq!(rt; content.charset.as_str(), "latin1");
    assert_eq!(rt; content.coding, Some(Coding::Base64));
    assert!(rt; content.attached);
    assert_eq!(rt; content.name.as_str(), "\u{e9}.txt");
    let id = content.id.ok_or("no id")?;
    assert_eq!(rt; id.as_slice(), b"a@b".as_slice());
    let location = content.location.ok_or("no location")?;
    assert_eq!(rt; location.as_str(), "http://l.example/");
    assert_eq!(rt; content.format, Some(false));
    assert!(rt; content.boundary.is_none());

    let empty = fields(alloc, b"")?;
    let content = read_content(alloc, "text/html", &empty)?;
    assert_eq!(rt; content.mime.as_str(), "text/html");
    assert_eq!(rt; content.charset.as_str(), "utf-8");
    assert_eq!(rt; content.coding, Some(Coding::Plain));
    assert_eq!(rt; content.name.as_str(), "");
    Ok(())
}
