//! The dates of messages.
use header_words::fields;
use message_dates::{minute_text, sent_instant};
use std::test::Fail;

/// The first second of 2026.
const NEW_YEAR: i64 = 1_767_225_600;

#[test]
fn reads_dates(rt: HostRuntime) -> Result<(), Fail> {
    let alloc = rt.alloc();
    let header = fields(alloc, b"Date: Thu, 1 Jan 2026 01:00:00 +0100 (CET)\r\n")?;
    let sent = sent_instant(alloc, &header, 0)?;
    assert_eq!(rt; sent, NEW_YEAR);
    Ok(())
}

#[test]
fn writes_minutes(rt: HostRuntime) -> Result<(), Fail> {
    let alloc = rt.alloc();
    for (instant, want) in [
        (NEW_YEAR - 1, "2025-12-31 23:59"),
        (1_709_164_800, "2024-02-29 00:00"),
        (i64::MIN, "-"),
    ] {
        let text = minute_text(alloc, instant)?;
        assert_eq!(rt; text.as_str(), want);
    }
    Ok(())
}
