use crate::shown::read_cut;
use crate::tables::{FORMS, RAW, TARGETS};
use std::alloc::{AllocError, Global};
use std::process::Abort;
use std::test::Fail;

/// A request for a target.
fn get(alloc: Global, target: &str) -> Result<String, AllocError> {
    format!(in alloc; "GET {target} HTTP/1.1\r\nHost: h\r\n\r\n")
}

/// A request that sends a form.
fn post(alloc: Global, path: &str, body: &str) -> Result<String, AllocError> {
    let len = body.len();
    format!(in alloc; "POST {path} HTTP/1.1\r\nContent-Length: {len}\r\n\r\n{body}")
}

/// A request is read alike in any two pieces.
fn check(rt: &impl Abort, alloc: Global, request: &[u8], want: &str) -> Result<(), AllocError> {
    for at in 0..request.len() {
        let read = read_cut(alloc, request, at)?;
        assert_eq!(rt; read.as_str(), want);
    }
    Ok(())
}

#[test]
fn reads_targets(rt: HostRuntime) -> Result<(), Fail> {
    let alloc = rt.alloc();
    for (target, want) in &TARGETS {
        let request = get(alloc, target)?;
        check(&rt, alloc, request.as_bytes(), want)?;
    }
    Ok(())
}

#[test]
fn reads_forms(rt: HostRuntime) -> Result<(), Fail> {
    let alloc = rt.alloc();
    for (path, body, want) in &FORMS {
        let request = post(alloc, path, body)?;
        check(&rt, alloc, request.as_bytes(), want)?;
    }
    Ok(())
}

#[test]
fn reads_heads(rt: HostRuntime) -> Result<(), Fail> {
    let alloc = rt.alloc();
    for (request, want) in &RAW {
        check(&rt, alloc, request, want)?;
    }
    Ok(())
}
