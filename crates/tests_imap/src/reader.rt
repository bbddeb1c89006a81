use imap_responses::{
    Item, Items, Memory, ReadFault, Reader, Response, Word, one_split, response_units,
};
use std::alloc::Global;
use std::test::Fail;

const FETCH: &[u8] = b"* 1 FETCH (UID 7 BODY[] {5}\r\na\r\n)b)\r\n";

/// A response in a few words.
fn told(alloc: Global, response: &Response) -> Result<String, Memory> {
    match response {
        Response::Continue { text } => lossy(alloc, "continue", text),
        Response::Tagged {
            tag: _,
            word: Word::Ok,
            code: None,
            text,
        } => lossy(alloc, "tagged ok", text),
        Response::State {
            word: Word::Ok,
            code: None,
            text,
        } => lossy(alloc, "state ok", text),
        Response::Fetch { number, items } => fetched(alloc, *number, items),
        Response::Other => String::from_str(alloc, "other"),
        _ => String::from_str(alloc, "unexpected"),
    }
}

fn lossy(alloc: Global, name: &str, text: &[u8]) -> Result<String, Memory> {
    let text = String::from_utf8_lossy(alloc, text)?;
    format!(in alloc; "{name} {text}")
}

fn fetched(alloc: Global, number: u32, items: &Items) -> Result<String, Memory> {
    let mut text = format!(in alloc; "fetch {number}")?;
    for item in items.as_slice() {
        match item {
            Item::Uid(uid) => write!(text, " uid {uid}")?,
            Item::Body(Some(body)) => {
                let body = String::from_utf8_lossy(alloc, body.as_slice())?;
                write!(text, " body {body}")?;
            }
            _ => text.push_str(" item")?,
        }
    }
    Ok(text)
}

/// The result of `next` in a few words.
fn next(alloc: Global, reader: &mut Reader) -> Result<String, Memory> {
    match reader.next() {
        Ok(Some(response)) => told(alloc, &response),
        Ok(None) => String::from_str(alloc, "none"),
        Err(ReadFault::Damaged { at }) => format!(in alloc; "damaged at {at}"),
        Err(ReadFault::Memory) => Err(Memory),
    }
}

/// The results of `next` for bytes that are fed whole, up to the first that is no response.
fn answers(alloc: Global, bytes: &[u8]) -> Result<String, Fail> {
    let mut reader = Reader::new(alloc);
    reader.feed(bytes)?;
    let mut text = String::new(alloc);
    for _ in 0..bytes.len() + 1 {
        let answer = next(alloc, &mut reader)?;
        text.push_str(answer.as_str())?;
        if answer.as_str() == "none" || answer.as_str().starts_with("damaged") {
            return Ok(text);
        }
        text.push_str("; ")?;
    }
    Ok(text)
}

const TOLD: &str = "fetch 1 uid 7 body a\r\n)b";

#[test]
fn a_fetch_byte_by_byte(rt: HostRuntime) -> Result<(), Fail> {
    let alloc = rt.alloc();
    let mut reader = Reader::new(alloc);
    assert_eq!(rt; FETCH.len(), 37);
    for i in 0..36 {
        reader.feed(&FETCH[i..i + 1])?;
        assert_eq!(rt; next(alloc, &mut reader)?.as_str(), "none");
    }
    reader.feed(&FETCH[36..])?;
    assert_eq!(rt; next(alloc, &mut reader)?.as_str(), TOLD);
    assert_eq!(rt; next(alloc, &mut reader)?.as_str(), "none");
    Ok(())
}

#[test]
fn a_fetch_in_two_pieces(rt: HostRuntime) -> Result<(), Fail> {
    let alloc = rt.alloc();
    for i in 0..FETCH.len() {
        let mut reader = Reader::new(alloc);
        reader.feed(&FETCH[..i])?;
        assert_eq!(rt; next(alloc, &mut reader)?.as_str(), "none");
        reader.feed(&FETCH[i..])?;
        assert_eq!(rt; next(alloc, &mut reader)?.as_str(), TOLD);
        assert_eq!(rt; next(alloc, &mut reader)?.as_str(), "none");
    }
    Ok(())
}

#[test]
fn damage_stays(rt: HostRuntime) -> Result<(), Fail> {
    let alloc = rt.alloc();
    let mut reader = Reader::new(alloc);
    reader.feed(b"* 1 FETCH (UID x)\r\n")?;
    assert_eq!(rt; next(alloc, &mut reader)?.as_str(), "damaged at 0");
    assert_eq!(rt; next(alloc, &mut reader)?.as_str(), "damaged at 0");
    assert_eq!(rt; reader.feed(b"+ go\r\n"), Err(ReadFault::Damaged { at: 0 }));
    assert_eq!(rt; reader.advance(), Err(ReadFault::Damaged { at: 0 }));
    Ok(())
}

#[test]
fn first_bytes_of_a_dial(rt: HostRuntime) -> Result<(), Fail> {
    let alloc = rt.alloc();
    for (bytes, want) in [
        (
            b"* OK hi\r\n* 2 FETCH (FLAGS (\\Seen)\r\n".as_slice(),
            "state ok hi; damaged at 9",
        ),
        (b"+ go\r\nA1\r\n", "continue go; damaged at 6"),
        (b"* 1 FETCH (UID 4294967296)\r\n", "damaged at 0"),
        (
            b"* 1 FETCH (MODSEQ (9223372036854775808))\r\n",
            "damaged at 0",
        ),
        (b"* LIST (\\Sent) \"/\" {33554433}\r\n", "damaged at 0"),
        (b"* LIST (\\Sent) \"/\" {33554432}\r\n", "none"),
        (b"* OK {3}\r\n", "state ok {3}; none"),
        (b"* SOMETHING new (x\r\n", "other; none"),
        (b"* VANISHED 7:x\r\n", "damaged at 0"),
        (b"*\r\n", "damaged at 0"),
        (b"A1 OK [APPENDUID x\r\n", "tagged ok [APPENDUID x; none"),
        (b"+ go\r\n+ on\r\n+", "continue go; continue on; none"),
    ] {
        assert_eq!(rt; answers(alloc, bytes)?.as_str(), want);
    }
    Ok(())
}

#[test]
fn pieces_give_the_same(rt: HostRuntime) -> Result<(), Fail> {
    let alloc = rt.alloc();
    let bytes = b"+ go\r\n* 1 FETCH (UID 7 BODY[] {5}\r\na\r\n)b)\r\n* OK hi\r\n* 2";
    for size in 1..bytes.len() {
        let mut pieces = Vec::new(alloc);
        for piece in bytes.chunks(size) {
            pieces.push(Vec::from_slice(alloc, piece)?)?;
        }
        let units = response_units(alloc, &pieces)?;
        assert_eq!(rt; units.len(), 3);
        assert_eq!(rt; units[1].as_slice(), FETCH);
    }
    one_split();
    Ok(())
}

#[test]
fn a_response_is_lent(rt: HostRuntime) -> Result<(), Fail> {
    let mut reader = Reader::new(rt.alloc());
    reader.feed(b"+ go\r\n+ on\r\n")?;
    for (unit, word) in [
        (b"+ go\r\n".as_slice(), b"go".as_slice()),
        (b"+ on\r\n", b"on"),
    ] {
        assert_eq!(rt; reader.advance(), Ok(true));
        assert_eq!(rt; reader.unit(), unit);
        assert!(rt; matches!(&reader.current()?, Response::Continue { text } if *text == word));
    }
    assert_eq!(rt; reader.advance(), Ok(false));
    Ok(())
}
