use mail_values::{Bytes, Section, Text, Words};
use std::test::Fail;

#[test]
fn reads_and_spells_sections(rt: HostRuntime) -> Result<(), Fail> {
    let alloc = rt.alloc();
    let mut full = String::from_str(alloc, "1")?;
    for _ in 1..40 {
        full.push_str(".1")?;
    }
    let long = format!(in alloc; "{full}.1")?;
    for text in ["1", "2.1", "65535.1.10", full.as_str()] {
        let section = Section::parse(text).ok_or("a section")?;
        let spelling = section.spell(alloc)?;
        assert_eq!(rt; spelling.as_str(), text);
    }
    for text in [
        "",
        "0",
        "01",
        "+1",
        "1.",
        ".1",
        "1..1",
        "65536",
        "1.0",
        "1 ",
        "a",
        "99999999999999999999",
        long.as_str(),
    ] {
        assert!(rt; Section::parse(text).is_none(), "{text}");
    }
    Ok(())
}

#[test]
fn keeps_texts_bytes_and_words(rt: HostRuntime) -> Result<(), Fail> {
    let alloc = rt.alloc();
    let text = Text::from_text(alloc, "caf\u{e9}")?;
    assert_eq!(rt; text.as_str(), "caf\u{e9}");
    let string = text.into_string();
    assert_eq!(rt; Text::from_string(string).as_str().len(), 5);
    let mut bytes = Bytes::from_slice(alloc, b"a")?;
    bytes.push(b'b')?;
    bytes.extend_from_slice(b"cd")?;
    let mut words = Words::new(alloc);
    words.push(bytes)?;
    let list = words.into_vec();
    assert_eq!(rt; list.len(), 1);
    let again = Words::from_vec(list);
    assert_eq!(rt; again.as_slice().len(), 1);
    let vec = Bytes::from_slice(alloc, b"xy")?.into_vec();
    assert_eq!(rt; Bytes::from_vec(vec).as_slice(), b"xy".as_slice());
    Ok(())
}
