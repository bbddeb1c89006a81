use crate::shown::{read, read_cut};
use mail_values::Bytes;
use std::alloc::{AllocError, Global};
use std::test::Fail;

/// A request for the login page whose head has this many bytes.
fn head_of(alloc: Global, len: usize) -> Result<Vec<u8>, AllocError> {
    let mut head = Vec::new(alloc);
    head.extend_from_slice(b"GET /login HTTP/1.1\r\nX: ")?;
    for _ in 0..len.saturating_sub(28) {
        head.push(b'a')?;
    }
    head.extend_from_slice(b"\r\n\r\n")?;
    Ok(head)
}

/// A request for the login page whose head has this many fields.
fn fields_of(alloc: Global, count: usize) -> Result<Vec<u8>, AllocError> {
    let mut head = Vec::new(alloc);
    head.extend_from_slice(b"GET /login HTTP/1.1\r\n")?;
    for _ in 0..count {
        head.extend_from_slice(b"X: a\r\n")?;
    }
    head.extend_from_slice(b"\r\n")?;
    Ok(head)
}

/// A login whose body has 1,048,576 bytes.
fn longest_login(alloc: Global) -> Result<Vec<u8>, AllocError> {
    let mut request = Vec::new(alloc);
    request.extend_from_slice(b"POST /login HTTP/1.1\r\nContent-Length: 1048576\r\n\r\n")?;
    request.extend_from_slice(b"user=ann&password=pw&x=")?;
    for _ in 23..1_048_576 {
        request.push(b'a')?;
    }
    Ok(request)
}

#[test]
fn reads_long_heads(rt: HostRuntime) -> Result<(), Fail> {
    let alloc = rt.alloc();
    for (len, want) in [(16_384, "login page"), (16_385, "head"), (20_000, "head")] {
        let head = head_of(alloc, len)?;
        for at in [0, 1, 23, 8_192, 16_383, 16_384] {
            let read = read_cut(alloc, &head, at)?;
            assert_eq!(rt; read.as_str(), want);
        }
    }
    for (count, want) in [(64, "login page"), (65, "head")] {
        let head = fields_of(alloc, count)?;
        let read = read_cut(alloc, &head, 0)?;
        assert_eq!(rt; read.as_str(), want);
    }
    Ok(())
}

#[test]
fn reads_single_bytes(rt: HostRuntime) -> Result<(), Fail> {
    let alloc = rt.alloc();
    let head = head_of(alloc, 16_384)?;
    let mut chunks = Vec::new(alloc);
    for byte in &head {
        chunks.push(Bytes::from_slice(alloc, &[*byte])?)?;
    }
    let read = read(alloc, chunks, head.len(), Vec::new(alloc))?;
    assert_eq!(rt; read.as_str(), "login page");
    Ok(())
}

#[test]
fn reads_the_longest_body(rt: HostRuntime) -> Result<(), Fail> {
    let alloc = rt.alloc();
    let request = longest_login(alloc)?;
    for at in [0, 40, 60, 500_000] {
        let read = read_cut(alloc, &request, at)?;
        assert_eq!(rt; read.as_str(), "login ann pw");
    }
    Ok(())
}

/// A fault while a head or a body is received: the call is cut.
#[test]
fn is_cut(rt: HostRuntime) -> Result<(), Fail> {
    let alloc = rt.alloc();
    for failing in 1..5 {
        let mut chunks = Vec::new(alloc);
        for piece in [
            "POST /login HT",
            "TP/1.1\r\nContent-Length: 20\r\n\r\n",
            "user=ann&",
            "password=pw",
        ] {
            chunks.push(Bytes::from_slice(alloc, piece.as_bytes())?)?;
        }
        let read = read(alloc, chunks, 100, vec![in alloc; failing]?)?;
        assert_eq!(rt; read.as_str(), "cut");
    }
    Ok(())
}
