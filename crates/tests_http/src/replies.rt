use http_front::http_text;
use mail_values::{Bytes, Text};
use site_asks::{Kind, Reply};
use std::alloc::{AllocError, Global};
use std::test::Fail;

fn reply(alloc: Global, status: u16, kind: Kind, body: &str) -> Result<Reply, AllocError> {
    Ok(Reply {
        status,
        kind,
        body: Bytes::from_slice(alloc, body.as_bytes())?,
        account: Text::from_text(alloc, "ann")?,
        turn: Some(1),
    })
}

/// The reply to a login, and a picture.
#[test]
fn writes_replies(rt: HostRuntime) -> Result<(), Fail> {
    let alloc = rt.alloc();
    let token = Text::from_text(alloc, "0123")?;
    let home = Kind::To(Text::from_text(alloc, "/list?f=a%0Ab")?);
    let sent_on = http_text(alloc, &reply(alloc, 303, home, "")?, Some(&token))?;
    let sent_on = String::from_utf8_lossy(alloc, &sent_on)?;
    assert_eq!(rt;
        sent_on.as_str(),
        "HTTP/1.1 303 See Other\r\nLocation: /list?f=a%0Ab\r\nSet-Cookie: wm=0123; HttpOnly; SameSite=Strict; Path=/\r\nContent-Type: text/html; charset=utf-8\r\nContent-Length: 0\r\nCache-Control: no-store\r\nX-Content-Type-Options: nosniff\r\nContent-Security-Policy: default-src 'none'; style-src 'self' 'unsafe-inline'; img-src 'self'\r\nConnection: close\r\n\r\n"
    );
    let media = Kind::Picture(Text::from_text(alloc, "image/png")?);
    let picture = http_text(alloc, &reply(alloc, 200, media, "PNG")?, None)?;
    let picture = String::from_utf8_lossy(alloc, &picture)?;
    assert_eq!(rt;
        picture.as_str(),
        "HTTP/1.1 200 OK\r\nContent-Type: image/png\r\nContent-Length: 3\r\nCache-Control: no-store\r\nX-Content-Type-Options: nosniff\r\nContent-Security-Policy: default-src 'none'; style-src 'self' 'unsafe-inline'; img-src 'self'\r\nConnection: close\r\n\r\nPNG"
    );
    Ok(())
}
