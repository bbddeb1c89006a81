use flowed_text::{Memory, Para, read_flowed, write_flowed};
use mail_values::Text;
use std::alloc::Global;
use std::test::Fail;

const LETTER: &str =
    "> quoted one \r\n> goes on\r\n>> deep\r\nplain \r\ntext\r\n stuffed\r\n-- \r\nsig\r\n";

// The paragraphs of the letter, without DelSp and with it.
const PARAGRAPHS: [(u32, &str, &str); 6] = [
    (1, "quoted one goes on", "quoted onegoes on"),
    (2, "deep", "deep"),
    (0, "plain text", "plaintext"),
    (0, "stuffed", "stuffed"),
    (0, "-- ", "-- "),
    (0, "sig", "sig"),
];

// Paragraphs, and the lines that RFC 3676 §4.2 and §4.4 make of them.
const WRITTEN: [(u32, &str, &str); 5] = [
    (2, "deep", ">> deep\r\n"),
    (0, " space first", "  space first\r\n"),
    (0, ">no mark", " >no mark\r\n"),
    (0, "From here", " From here\r\n"),
    (
        1,
        "Sixty letters and more stand in this line, which has to be broken where the words end.",
        "> Sixty letters and more stand in this line, which has to be broken where \r\n> the words end.\r\n",
    ),
];

fn paras_of(alloc: Global, parts: &[(u32, &str)]) -> Result<Vec<Para>, Memory> {
    let mut paras = Vec::new(alloc);
    for (depth, text) in parts {
        paras.push(Para {
            depth: *depth,
            text: Text::from_text(alloc, text)?,
        })?;
    }
    Ok(paras)
}

#[test]
fn each_call_with_ample_memory(rt: HostRuntime) -> Result<(), Fail> {
    let alloc = rt.alloc();
    let plain = read_flowed(alloc, LETTER, false)?;
    let shortened = read_flowed(alloc, LETTER, true)?;
    assert_eq!(rt; plain.len(), PARAGRAPHS.len());
    assert_eq!(rt; shortened.len(), PARAGRAPHS.len());
    for ((para, short), (depth, text, short_text)) in plain
        .iter()
        .zip(shortened.iter())
        .zip(PARAGRAPHS)
    {
        assert_eq!(rt; para.depth, depth);
        assert_eq!(rt; para.text.as_str(), text);
        assert_eq!(rt; short.depth, depth);
        assert_eq!(rt; short.text.as_str(), short_text);
    }
    for (depth, text, written) in WRITTEN {
        let paras = paras_of(alloc, &[(depth, text)])?;
        assert_eq!(rt; write_flowed(alloc, paras.as_slice())?.as_str(), written);
    }
    let again = write_flowed(alloc, plain.as_slice())?;
    assert_eq!(rt;
        again.as_str(),
        "> quoted one goes on\r\n>> deep\r\nplain text\r\nstuffed\r\n-- \r\nsig\r\n"
    );
    Ok(())
}

// A text of this many copies of a piece.
fn repeated(alloc: Global, piece: &str, count: usize) -> Result<String, Memory> {
    let mut text = String::new(alloc);
    for _ in 0..count {
        text.push_str(piece)?;
    }
    Ok(text)
}

// The length of a paragraph as it is written; none if it is refused.
fn written_len(alloc: Global, depth: u32, text: String) -> Option<usize> {
    let text = Text::from_string(text);
    match write_flowed(alloc, &[Para { depth, text }]) {
        Ok(text) => Some(text.len()),
        Err(_) => None,
    }
}

#[test]
fn refuses_more_than_64_mib(rt: HostRuntime) -> Result<(), Fail> {
    let alloc = rt.alloc();
    for (depth, piece, count, len) in [
        (262_144, "x ", 131_072, None),
        (0, "x", 67_108_862, Some(67_108_864)),
        (0, "x", 67_108_863, None),
    ] {
        let got = written_len(alloc, depth, repeated(alloc, piece, count)?);
        assert_eq!(rt; got, len, "depth {depth}, {count} times");
    }
    let words = repeated(alloc, "x ", 131_072)?;
    assert!(rt; written_len(alloc, 0, words).is_some());
    Ok(())
}
