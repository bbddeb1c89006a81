use header_words::Base;
use mail_values::{Bytes, Text, Words};
use std::alloc::{AllocError, Global};
use std::test::Fail;
use thread_references::{Facts, Forest, threads};

/// The facts that a line tells: the UID, the date, the identifier and references, a mark of a reply, and the base subject.
fn facts_of(alloc: Global, line: &str) -> Result<Facts, AllocError> {
    let mut fields = line.split('|');
    let uid = fields.next().and_then(|f| f.parse().ok()).unwrap_or(0);
    let sent = fields.next().and_then(|f| f.parse().ok()).unwrap_or(0);
    let name = fields.next().unwrap_or("");
    let mut references = Words::new(alloc);
    for id in fields.next().unwrap_or("").split_ascii_whitespace() {
        references.push(Bytes::from_slice(alloc, id.as_bytes())?)?;
    }
    let reply = fields.next().unwrap_or("") == "re";
    let text = Text::from_text(alloc, fields.next().unwrap_or(""))?;
    let id = if name.is_empty() {
        None
    } else {
        Some(Bytes::from_slice(alloc, name.as_bytes())?)
    };
    Ok(Facts {
        uid,
        id,
        references,
        subject: Base { text, reply },
        sent,
    })
}

/// The facts of the messages of a mailbox, one a line.
fn mailbox(alloc: Global, lines: &str) -> Result<Vec<Facts>, AllocError> {
    let mut facts = Vec::new(alloc);
    for line in lines.lines() {
        facts.push(facts_of(alloc, line)?)?;
    }
    Ok(facts)
}

/// The UIDs and depths of a forest.
fn shown(alloc: Global, forest: &Forest) -> Result<String, Fail> {
    let mut text = String::new(alloc);
    for (uid, depth) in &forest.flat(alloc)? {
        text.push_str(&format!(in alloc; "{uid}:{depth} ")?)?;
    }
    Ok(text)
}

#[test]
fn threads_mailboxes(rt: HostRuntime) -> Result<(), Fail> {
    let alloc = rt.alloc();
    for (lines, want) in [
        (
            "1|10|m1@x|a@x b@x|re|x\n2|20|m2@x|b@x a@x||x\n3|30|m1@x||re|x",
            "1:1 2:1 3:1 ",
        ),
        ("1|10||||\n2|20||||", "2:0 1:0 "),
        ("1|10|a@|x@ a@||\n2|20|b@|a@||", "1:0 2:1 "),
        ("1|10|a@|b@||\n2|20|b@|a@||", "2:0 1:1 "),
        (
            "1|10|m@|a@ b@ c@||\n2|20|b@|||\n3|30|n@|a@ b@||",
            "2:0 1:1 3:1 ",
        ),
        (
            "7|10|a@|||s\n8|10|a@|||t\n9|10|b@|a@||\n10|5|c@|a@||",
            "8:0 7:0 10:1 9:1 ",
        ),
        ("1|10|||re|x\n2|20||||x\n3|5|||re|x", "2:0 3:1 1:1 "),
        ("1|10||||x\n2|20||||x\n3|15|||re|x", "1:1 3:2 2:1 "),
        (
            "1|10|a@|p@||x\n2|20|b@|p@||y\n3|5|c@|q@||z\n4|30|d@|q@||z\n5|6|e@|r@|re|x\n6|7|f@|r@|re|x",
            "5:1 6:1 1:1 2:1 3:1 4:1 ",
        ),
        (
            "1|10|m@|a@ b@ c@ d@||\n2|9|n@|b@||\n3|8|o@|x@ d@||\n4|7|c@|a@ x@||",
            "4:1 3:2 1:2 2:1 ",
        ),
        (
            "1|10|m@|a@ b@ c@||\n2|20|a@|c@||\n3|30|c@|a@||",
            "2:0 3:1 1:2 ",
        ),
        ("1|10|a@|c@||\n2|20|b@|a@||\n3|30|c@|b@||", "3:0 1:1 2:2 "),
        ("1|10|m@|a@ b@ c@ d@||\n2|20|n@|m@||", "1:0 2:1 "),
        ("4|10|m@|a@||\n5|10|n@|a@||\n6|10||||", "6:0 4:1 5:1 "),
        ("1|10||||STRASSE\n2|20|||re|stra\u{df}e", "1:0 2:1 "),
        (
            "1|10||||x\n2|20|b@|p@||x\n3|30|c@|p@||y\n4|40|||re|x",
            "1:1 2:1 3:1 4:1 ",
        ),
    ] {
        let facts = mailbox(alloc, lines)?;
        let forest = threads(alloc, &facts)?;
        let text = shown(alloc, &forest)?;
        assert_eq!(rt; text.as_str(), want, "{lines}");
    }
    Ok(())
}

#[test]
fn adds_messages(rt: HostRuntime) -> Result<(), Fail> {
    let alloc = rt.alloc();
    let first = mailbox(alloc, "1|10|m1@x|a@x b@x|re|x")?;
    let later = mailbox(alloc, "2|20|m2@x|b@x a@x||x\n3|30|m1@x||re|x")?;
    let mut forest = threads(alloc, &first)?;
    assert_eq!(rt;
        (forest.roots(), forest.facts().len(), forest.added()),
        (1, 1, 0)
    );
    let mut other = threads(alloc, &first)?;
    other.add_all(alloc, &later)?;
    for facts in later {
        forest.add(alloc, facts)?;
    }
    for forest in [&forest, &other] {
        let text = shown(alloc, forest)?;
        assert_eq!(rt; text.as_str(), "1:1 2:1 3:1 ");
        assert_eq!(rt;
            (forest.roots(), forest.facts().len(), forest.added()),
            (1, 3, 2)
        );
    }
    Ok(())
}
