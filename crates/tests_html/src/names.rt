// The names of a tag's attributes: the first of each name is kept, whatever the names and their order.
use html_tokens::{Attributes, Memory, Token, read_tokens};
use std::alloc::Global;
use std::process::Abort;
use std::test::Fail;

fn attributes_of(alloc: Global, text: &str) -> Result<Attributes, Fail> {
    for token in read_tokens(alloc, text)? {
        if let Token::Start { attributes, .. } = token {
            return Ok(attributes);
        }
    }
    Ok(Attributes::new(alloc))
}

// A tag with an attribute of each name, and then another of each name.
fn tag_of(alloc: Global, names: &[String]) -> Result<String, Memory> {
    let mut tag = String::from_str(alloc, "<a")?;
    for (i, name) in names.iter().enumerate() {
        tag.push_str(format!(in alloc; " {name}={i}")?.as_str())?;
    }
    for name in names {
        tag.push_str(format!(in alloc; " {name}=again")?.as_str())?;
    }
    tag.push('>')?;
    Ok(tag)
}

fn assert_kept(rt: &impl Abort, alloc: Global, names: &[String]) -> Result<(), Fail> {
    let attributes = attributes_of(alloc, tag_of(alloc, names)?.as_str())?;
    assert_eq!(rt; attributes.len(), names.len());
    for (i, name) in names.iter().enumerate() {
        assert_eq!(rt; attributes.name(i), name.as_str());
        assert_eq!(rt; attributes.value(i), format!(in alloc; "{i}")?.as_str());
    }
    Ok(())
}

fn push_rising(
    alloc: Global,
    names: &mut Vec<String>,
    word: &str,
    from: u32,
    to: u32,
) -> Result<(), Memory> {
    for n in from..to {
        names.push(format!(in alloc; "{word}{n}")?)?;
    }
    Ok(())
}

fn push_falling(
    alloc: Global,
    names: &mut Vec<String>,
    word: &str,
    count: u32,
) -> Result<(), Memory> {
    for n in (0..count).rev() {
        names.push(format!(in alloc; "{word}{n}")?)?;
    }
    Ok(())
}

fn push_words(alloc: Global, names: &mut Vec<String>, words: &[&str]) -> Result<(), Memory> {
    for word in words {
        names.push(String::from_str(alloc, *word)?)?;
    }
    Ok(())
}

#[test]
fn names_of_each_length_are_kept_once(rt: HostRuntime) -> Result<(), Fail> {
    let alloc = rt.alloc();
    let mut names = Vec::new(alloc);
    push_rising(alloc, &mut names, "filler", 0, 17)?;
    // one byte, a prefix of another, fourteen bytes, fifteen, sixteen and more, and not ASCII
    let words = [
        "a",
        "ab",
        "b",
        "\u{FFFD}",
        "\u{FFFD}\u{FFFD}",
        "id",
        "data-of-fiftee",
        "data-of-fifteen",
        "data-of-fifteens",
        "data-of-sixteen-and-more",
        "data-of-sixteen-and-mora",
        "äöü",
    ];
    push_words(alloc, &mut names, &words)?;
    assert_kept(&rt, alloc, &names)
}

#[test]
fn names_in_each_order_are_kept_once(rt: HostRuntime) -> Result<(), Fail> {
    let alloc = rt.alloc();
    let mut names = Vec::new(alloc);
    push_rising(alloc, &mut names, "up", 10, 50)?;
    // only the first is greater than those before it, since a shorter name has a smaller number
    push_falling(alloc, &mut names, "down", 120)?;
    // between those that came, and the last above them all
    let words = ["up1", "up100", "up1a", "up5", "v", "data-of-fifteen"];
    push_words(alloc, &mut names, &words)?;
    assert_kept(&rt, alloc, &names)
}
