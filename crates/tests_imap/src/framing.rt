use imap_framing::{Memory, TooLong, UnitReader, one_split, plain_lines, units_of};
use std::alloc::Global;
use std::test::Fail;

/// The units of a stream that is fed whole, each without its last CR LF and with `|` after it, and then `..`, or `too long at` and an
/// offset.
fn shown(alloc: Global, stream: &[u8]) -> Result<String, Memory> {
    let mut reader = UnitReader::new(alloc);
    let mut text = String::new(alloc);
    reader.feed(stream)?;
    for _ in 0..stream.len() + 1 {
        match reader.advance() {
            Ok(true) => push_unit(&mut text, alloc, reader.unit())?,
            Ok(false) => {
                text.push_str("..")?;
                return Ok(text);
            }
            Err(TooLong { at }) => {
                write!(text, "too long at {at}")?;
                return Ok(text);
            }
        }
    }
    Ok(text)
}

fn push_unit(text: &mut String, alloc: Global, unit: &[u8]) -> Result<(), Memory> {
    let line = &unit[..unit.len().saturating_sub(2)];
    text.push_str(&String::from_utf8_lossy(alloc, line)?)?;
    text.push('|')
}

#[test]
fn lines_end_at_cr_lf(rt: HostRuntime) -> Result<(), Fail> {
    let alloc = rt.alloc();
    for (stream, want) in [
        (b"".as_slice(), ".."),
        (b"\r\n", "|.."),
        (b"+ go\r\n\r\n* 1 EXISTS\r\n* 2", "+ go||* 1 EXISTS|.."),
        (b"a\nb\rc\r\r\nd\n\r\n", "a\nb\rc\r|d\n|.."),
        (b"A1 OK done\r", ".."),
        (b"A1 OK done\n", ".."),
    ] {
        assert_eq!(rt; shown(alloc, stream)?.as_str(), want);
    }
    Ok(())
}

#[test]
fn literals_go_on(rt: HostRuntime) -> Result<(), Fail> {
    let alloc = rt.alloc();
    for (stream, want) in [
        (
            b"* 1 FETCH (UID 7 BODY[] {5}\r\na\r\n)b)\r\n".as_slice(),
            "* 1 FETCH (UID 7 BODY[] {5}\r\na\r\n)b)|..",
        ),
        (
            b"* LIST () NIL {0}\r\n\r\nx\r\n",
            "* LIST () NIL {0}\r\n|x|..",
        ),
        (b"* X {1}\r\n{ {2}\r\n{}\r\n", "* X {1}\r\n{ {2}\r\n{}|.."),
        (b"* X {3}\r\nab", ".."),
        (b"* X {003}\r\nab\r\n}\r\n", "* X {003}\r\nab\r\n}|.."),
        (b"* X {}\r\n* X {3+}\r\n", "* X {}|* X {3+}|.."),
        (b"* X {1{2}\r\nab\r\n", "* X {1{2}\r\nab|.."),
        (b"* X {2} \r\n* X 2}\r\n", "* X {2} |* X 2}|.."),
        (b"* X ~{3}\r\n\r\n)\r\n", "* X ~{3}\r\n\r\n)|.."),
    ] {
        assert_eq!(rt; shown(alloc, stream)?.as_str(), want);
    }
    Ok(())
}

#[test]
fn some_units_have_none(rt: HostRuntime) -> Result<(), Fail> {
    let alloc = rt.alloc();
    for (stream, want) in [
        (
            b"* OK {3}\r\n* no {3}\r\n".as_slice(),
            "* OK {3}|* no {3}|..",
        ),
        (b"* Bad {3}\r\n* BYE {3}\r\n", "* Bad {3}|* BYE {3}|.."),
        (b"* PREAUTH {3}\r\n", "* PREAUTH {3}|.."),
        (b"A1 OK {3}\r\n+ {3}\r\n", "A1 OK {3}|+ {3}|.."),
        (b"*  OK {1}\r\n)\r\n", "*  OK {1}\r\n)|.."),
        (b"* OKAY {1}\r\n)\r\n", "* OKAY {1}\r\n)|.."),
        (b"* 5 OK {1}\r\n)\r\n", "* 5 OK {1}\r\n)|.."),
    ] {
        assert_eq!(rt; shown(alloc, stream)?.as_str(), want);
    }
    Ok(())
}

#[test]
fn long_literals_stop(rt: HostRuntime) -> Result<(), Fail> {
    let alloc = rt.alloc();
    for (stream, want) in [
        (b"* X {33554432}\r\n".as_slice(), ".."),
        (b"* X {33554433}\r\n", "too long at 0"),
        (b"+\r\n* X {1}\r\na {33554433}\r\n+\r\n", "+|too long at 3"),
        (b"* X {99999999999999999999999999}\r\n", "too long at 0"),
        (b"* OK {33554433}\r\n", "* OK {33554433}|.."),
    ] {
        assert_eq!(rt; shown(alloc, stream)?.as_str(), want);
    }
    Ok(())
}

#[test]
fn pieces_give_the_same(rt: HostRuntime) -> Result<(), Fail> {
    let alloc = rt.alloc();
    let stream = b"* 1 FETCH (BODY[] {5}\r\na\r\n)b)\r\n* OK {3}\r\n+\r\n";
    let mut pieces = Vec::new(alloc);
    for byte in stream {
        pieces.push(Vec::from_slice(alloc, &[*byte])?)?;
    }
    let units = units_of(alloc, &pieces)?;
    let mut text = String::new(alloc);
    for unit in &units {
        push_unit(&mut text, alloc, unit)?;
    }
    text.push_str("..")?;
    assert_eq!(rt; text.as_str(), shown(alloc, stream)?.as_str());
    Ok(())
}

#[test]
fn a_unit_is_given_back(rt: HostRuntime) -> Result<(), Fail> {
    let mut reader = UnitReader::new(rt.alloc());
    reader.feed(b"+ go\r\n+ on\r\n")?;
    assert!(rt; matches!(reader.advance(), Ok(true)));
    assert_eq!(rt; (reader.unit(), reader.at()), (b"+ go\r\n".as_slice(), 6));
    reader.give_back();
    assert_eq!(rt; (reader.unit(), reader.at()), (b"".as_slice(), 0));
    assert!(rt; matches!(reader.advance(), Ok(true)));
    assert_eq!(rt; reader.unit(), b"+ go\r\n".as_slice());
    assert!(rt; matches!(reader.advance(), Ok(true)));
    assert_eq!(rt; (reader.unit(), reader.at()), (b"+ on\r\n".as_slice(), 12));
    assert!(rt; matches!(reader.advance(), Ok(false)));
    one_split();
    plain_lines();
    Ok(())
}
