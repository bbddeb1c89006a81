use mail_addresses::{AddressFault, is_address, mailboxes};
use std::alloc::{AllocError, Global};
use std::test::Fail;

/// The boxes of a text, each as its name, its address and `;`, or `at` and the place of the fault.
fn shown(alloc: Global, text: &str) -> Result<String, AllocError> {
    match mailboxes(alloc, text) {
        Ok(boxes) => {
            let mut out = String::new(alloc);
            for one in &boxes {
                out.push_str(one.name.as_str())?;
                out.push_str("|")?;
                out.push_str(one.address.as_str())?;
                out.push_str(";")?;
            }
            Ok(out)
        }
        Err(AddressFault::NotAddress { at }) => format!(in alloc; "at {at}"),
        Err(AddressFault::Memory) => Err(AllocError),
    }
}

#[test]
fn reads_lists(rt: HostRuntime) -> Result<(), Fail> {
    let alloc = rt.alloc();
    for (text, want) in [
        ("bob@d.example", "|bob@d.example;"),
        (" a@b , c@d ", "|a@b;|c@d;"),
        ("Ann Lee <a@b>", "Ann Lee|a@b;"),
        ("  Ann  Lee  <a@b>  ", "Ann  Lee|a@b;"),
        ("<a@b>", "|a@b;"),
        ("\"\" <a@b>", "|a@b;"),
        (
            "\" Lee, \\\"A\\\" \\\\ \\\u{e9}\"<a@b>,c@d",
            " Lee, \"A\" \\ \u{e9}|a@b;|c@d;",
        ),
        (
            "\u{e9}\u{1F600} \\ \r\n (x) <a@b>",
            "\u{e9}\u{1F600} \\ \r\n (x)|a@b;",
        ),
        ("!#$%&'*+-/=?^_`{|}~.@-.a", "|!#$%&'*+-/=?^_`{|}~.@-.a;"),
        ("", "at 0"),
        ("   ", "at 3"),
        ("bob@", "at 4"),
        ("bob", "at 3"),
        (",a@b", "at 0"),
        ("a@b,", "at 4"),
        ("a@b,,c@d", "at 4"),
        ("a@b c@d", "at 4"),
        ("a b@c", "at 3"),
        ("(x)@c", "at 3"),
        ("@c", "at 0"),
        ("a@b@c", "at 3"),
        ("a@b>", "at 3"),
        ("Ann <a@b", "at 8"),
        ("Ann <a b@c>", "at 6"),
        ("Ann <a@b> x", "at 10"),
        ("Ann < a@b>", "at 5"),
        ("Ann \"Lee\" <a@b>", "at 4"),
        ("\"Ann", "at 4"),
        ("\"Ann\\", "at 5"),
        ("\"Ann\" Lee <a@b>", "at 6"),
        ("\u{e9}@b", "at 2"),
        ("a@\u{e9}", "at 2"),
    ] {
        let boxes = shown(alloc, text)?;
        assert_eq!(rt; boxes.as_str(), want, "{text}");
    }
    Ok(())
}

/// Some text before a part that is repeated, and some after it.
fn long(
    alloc: Global,
    front: &str,
    part: &str,
    count: usize,
    end: &str,
) -> Result<String, AllocError> {
    let mut text = String::from_str(alloc, front)?;
    for _ in 0..count {
        text.push_str(part)?;
    }
    text.push_str(end)?;
    Ok(text)
}

#[test]
fn keeps_the_limits_of_addresses(rt: HostRuntime) -> Result<(), Fail> {
    let alloc = rt.alloc();
    for (front, count, end, want) in [
        ("", 64, "@b", true),
        ("", 65, "@b", false),
        ("a@", 255, "", true),
        ("a@", 256, "", false),
        ("a@", 0, "", false),
        ("", 0, "@b", false),
        (" ", 1, "@b", false),
        ("", 1, "@b ", false),
        ("<", 1, "@b>", false),
    ] {
        let text = long(alloc, front, "x", count, end)?;
        assert_eq!(rt; is_address(&text), want, "{front}{count}{end}");
    }
    Ok(())
}

#[test]
fn reads_long_texts(rt: HostRuntime) -> Result<(), Fail> {
    let alloc = rt.alloc();
    for (front, part, count, end, want) in [
        ("", "<", 525_000, "", "at 1"),
        ("", "\"", 525_000, "", "at 2"),
        ("", ",", 525_000, "", "at 0"),
        ("", " ", 525_000, "", "at 525000"),
        ("", "x", 525_000, "", "at 525000"),
        ("\"", "\\\\", 262_500, "", "at 525001"),
        ("<", "x", 65, "@b>", "at 65"),
        ("", "x", 65, "@b", "at 65"),
    ] {
        let text = long(alloc, front, part, count, end)?;
        let boxes = shown(alloc, &text)?;
        assert_eq!(rt; boxes.as_str(), want, "{front}{part}{end}");
    }
    Ok(())
}

#[test]
fn reads_many_boxes(rt: HostRuntime) -> Result<(), Fail> {
    let alloc = rt.alloc();
    let text = long(alloc, "a@b", ",a@b", 131_000, "")?;
    match mailboxes(alloc, &text) {
        Ok(boxes) => assert_eq!(rt; boxes.len(), 131_001),
        Err(_) => assert!(rt; false),
    }
    Ok(())
}
