use imap_commands::UidSet;
use imap_grammar::{Code, Item, Items, Lent, Memory, Response, Slices, Word, read_response};
use std::alloc::Global;
use std::process::Abort;
use std::test::Fail;

/// Continuation requests, status responses, capabilities and LIST: each unit, and its response as a line of text.
static STATUS_AND_LIST_UNITS: [&str; 114] = [
    // continuation requests and completions of commands
    "+ go\r\n",
    "continue [go]",
    "+\r\n",
    "continue []",
    "+go\r\n",
    "continue [go]",
    "A1 OK done\r\n",
    "tagged A1 Ok None [done]",
    "a1 no\r\n",
    "tagged a1 No None []",
    "A1 bAd what\r\n",
    "tagged A1 Bad None [what]",
    "A1 OK [APPENDUID x\r\n",
    "tagged A1 Ok None [[APPENDUID x]",
    "A1 OK [APPENDUID 38505 3955] done\r\n",
    "tagged A1 Ok Some(Unread) [done]",
    "A2 NO [TRYCREATE]\r\n",
    "tagged A2 No Some(Unread) []",
    // lines that are no completion
    "A1\r\n",
    "none",
    "A1 BYE x\r\n",
    "none",
    " OK x\r\n",
    "none",
    "A1 OKAY\r\n",
    "none",
    "*\r\n",
    "none",
    "\r\n",
    "none",
    "a*1 OK x\r\n",
    "none",
    "A1  OK x\r\n",
    "none",
    "A+1 OK x\r\n",
    "none",
    // status responses
    "* OK hi\r\n",
    "state Ok None [hi]",
    "* OK\r\n",
    "state Ok None []",
    "* ok {3}\r\n",
    "state Ok None [{3}]",
    "* BYE logging out\r\n",
    "state Bye None [logging out]",
    "* PREAUTH [CAPABILITY IMAP4rev2 QRESYNC] in\r\n",
    "state Preauth Some(Unread) [in]",
    "* NO [ALERT]full\r\n",
    "state No Some(Unread) [full]",
    "* BAD\r\n",
    "state Bad None []",
    "* OK [PERMANENTFLAGS (\\Deleted \\*)] Limited\r\n",
    "state Ok Some(Unread) [Limited]",
    "* OK\tx\r\n",
    "other",
    // codes
    "* OK [UIDVALIDITY 3857529045] valid\r\n",
    "state Ok Some(Uidvalidity(3857529045)) [valid]",
    "* ok [uidvalidity 0]\r\n",
    "state Ok Some(Uidvalidity(0)) []",
    "* OK [UIDVALIDITY 4294967296] x\r\n",
    "state Ok None [[UIDVALIDITY 4294967296] x]",
    "* OK [UIDVALIDITY 1 2] x\r\n",
    "state Ok None [[UIDVALIDITY 1 2] x]",
    "* OK [UIDVALIDITY] x\r\n",
    "state Ok None [[UIDVALIDITY] x]",
    "* OK [NoModSeq] none\r\n",
    "state Ok Some(Nomodseq) [none]",
    "* OK [CLOSED] gone\r\n",
    "state Ok Some(Closed) [gone]",
    "* OK [] x\r\n",
    "state Ok None [[] x]",
    "* OK [UNSEEN 12]  two\r\n",
    "state Ok Some(Unread) [ two]",
    // codes with a MODSEQ
    "* OK [HIGHESTMODSEQ 715194045007] x\r\n",
    "state Ok Some(Highestmodseq(715194045007)) [x]",
    "* OK [HIGHESTMODSEQ 9223372036854775807]\r\n",
    "state Ok Some(Highestmodseq(9223372036854775807)) []",
    "* OK [HIGHESTMODSEQ 9223372036854775808]\r\n",
    "state Ok None [[HIGHESTMODSEQ 9223372036854775808]]",
    "* OK [HIGHESTMODSEQ 0] x\r\n",
    "state Ok None [[HIGHESTMODSEQ 0] x]",
    // CAPABILITY and ENABLED
    "* CAPABILITY IMAP4REV2 QResync AUTH=PLAIN\r\n",
    "capability IMAP4REV2|QResync|AUTH=PLAIN|",
    "* capability  imap4rev2 \r\n",
    "capability imap4rev2|",
    "* CAPABILITY\r\n",
    "capability ",
    "* ENABLED QRESYNC CONDSTORE\r\n",
    "enabled QRESYNC|CONDSTORE|",
    "* Enabled\r\n",
    "enabled ",
    "* CAPABILITY a {3}\r\nabc\r\n",
    "none",
    // LIST
    "* LIST (\\HasNoChildren \\sent) \"/\" Sent\r\n",
    "list \\HasNoChildren|\\sent| [Sent]",
    "* list () NIL INBOX\r\n",
    "list  [INBOX]",
    "* LIST (\\Noselect) \".\" \"a \\\"b\\\\\"\r\n",
    "list \\Noselect| [a \"b\\]",
    "* LIST (\\Sent) \"/\" {9}\r\nGe sendet\r\n",
    "list \\Sent| [Ge sendet]",
    "* LIST () \"\\\\\" {0}\r\n\r\n",
    "list  []",
    "* LIST () \"/\" ~peter/mail/&U,BTFw- (\"CHILDINFO\" (\"SUBSCRIBED\"))\r\n",
    "list  [~peter/mail/&U,BTFw-]",
    "* LIST () nil \"Entwürfe\" (OLDNAME ({3}\r\nabc))\r\n",
    "list  [Entwürfe]",
    "* LIST (\\Drafts) \"\" Drafts\r\n",
    "list \\Drafts| [Drafts]",
    "* LIST () \"/\" NIL\r\n",
    "list  [NIL]",
    "* LIST () NIL ~{4}\r\nSent\r\n",
    "list  [Sent]",
    "* LIST () NIL ~\r\n",
    "list  [~]",
];

/// LIST of another form, numbers and FETCH: each unit, and its response as a line of text.
static FETCH_UNITS: [&str; 112] = [
    // LIST with another form
    "* LIST\r\n",
    "none",
    "* LIST () \"/\"\r\n",
    "none",
    "* LIST () / a\r\n",
    "none",
    "* LIST (\\Sent \"/\" a\r\n",
    "none",
    "* LIST () \"/\" \"a\r\n",
    "none",
    "* LIST () \"/\" {4}\r\nabc\r\n",
    "none",
    "* LIST () \"/\" \r\n",
    "none",
    "* LIST \\Sent \"/\" a\r\n",
    "none",
    "* LIST () \"/\" \"a{1}\r\nb\"\r\n",
    "none",
    "* LIST () \"/\" a\nb\r\n",
    "none",
    "* LIST () \"/\" \"a\"b\r\n",
    "none",
    "* LIST () \"/\" ~{3}\r\nab\r\n",
    "none",
    // EXISTS, EXPUNGE and other words after a number
    "* 23 EXISTS\r\n",
    "exists 23",
    "* 0 exists\r\n",
    "exists 0",
    "* 4294967295 Expunge\r\n",
    "expunge 4294967295",
    "* 4294967296 EXISTS\r\n",
    "none",
    "* 23 EXISTS now\r\n",
    "none",
    "* 5 RECENT\r\n",
    "other",
    "* 5 X-NEW {3}\r\na b\r\n",
    "other",
    "* 23\r\n",
    "none",
    "* 23 \r\n",
    "none",
    // FETCH of rows
    "* 1 FETCH (UID 7 FLAGS (\\Seen $HasAttachment) MODSEQ (12) INTERNALDATE \"17-Jul-1996 02:44:25 -0700\" RFC822.SIZE 4286)\r\n",
    "fetch 1: uid 7; flags \\Seen|$HasAttachment|; modseq 12; internal 837596665; size 4286; ",
    "* 2 fetch (modseq (9223372036854775807) uid 4294967295)\r\n",
    "fetch 2: modseq 9223372036854775807; uid 4294967295; ",
    "* 3 FETCH (FLAGS () UID 1)\r\n",
    "fetch 3: flags ; uid 1; ",
    "* 4 FETCH ()\r\n",
    "fetch 4: ",
    "* 5 FETCH (RFC822.SIZE 9223372036854775807)\r\n",
    "fetch 5: size 9223372036854775807; ",
    "* 5 FETCH (RFC822.SIZE 0 rfc822.size 1)\r\n",
    "fetch 5: size 0; size 1; ",
    // FETCH of headers and bodies
    "* 1 FETCH (UID 7 BODY[] {5}\r\na\r\n)b)\r\n",
    "fetch 1: uid 7; body [a\r\n)b]; ",
    "* 1 FETCH (BODY[HEADER.FIELDS (DATE FROM)] {10}\r\nFrom: a\r\n\r UID 2)\r\n",
    "fetch 1: header [From: a\r\n\r]; uid 2; ",
    "* 1 FETCH (body[header] NIL BODY[TEXT]<0> nil)\r\n",
    "fetch 1: header NIL; body NIL; ",
    "* 1 FETCH (BODY[1.2] \"a\\\"b\\\\c\")\r\n",
    "fetch 1: body [a\"b\\c]; ",
    "* 1 FETCH (BODY[] \"\" BODY[1] {0}\r\n)\r\n",
    "fetch 1: body []; body []; ",
    "* 1 FETCH (UID 3 BODY[] ~{6}\r\na\0\r\n)))\r\n",
    "fetch 1: uid 3; body [a\0\r\n))]; ",
    "* 1 FETCH (BODY[HEADER] ~{0}\r\n BODY[1] NIL)\r\n",
    "fetch 1: header []; body NIL; ",
    "* 1 FETCH (BODY[] ~a)\r\n",
    "none",
    "* 1 FETCH (BODY[] ~{1+}\r\na)\r\n",
    "none",
    "* 1 FETCH (BODY[]  {1}\r\na)\r\n",
    "none",
    "* 1 FETCH (BODY[] a)\r\n",
    "none",
    // FETCH items of other names
    "* 1 FETCH (ENVELOPE (\"d\" \"s ) (\" ((NIL NIL \"a\" \"b\")) NIL) UID 3)\r\n",
    "fetch 1: other; uid 3; ",
    "* 1 FETCH (BODY (\"text\" \"plain\" (\"charset\" \"utf-8\")) UID 3)\r\n",
    "fetch 1: other; uid 3; ",
    "* 1 FETCH (BODYSTRUCTURE ((\"a\" \"b\" {2}\r\n)))(\"c\" NIL)) UID 3)\r\n",
    "fetch 1: other; uid 3; ",
    "* 1 FETCH (BINARY[1] ~{3}\r\n))) BINARY.SIZE[1] 3)\r\n",
    "fetch 1: other; other; ",
    "* 1 FETCH (X-GM-LABELS (\\Inbox \"a b\") EMAILID (M6d) THREADID NIL)\r\n",
    "fetch 1: other; other; other; ",
    "* 1 FETCH (X[a b ( c] () Y ~x)\r\n",
    "fetch 1: other; other; ",
    "* 1 FETCH (X (\"a)\r\n",
    "none",
    "* 1 FETCH (X (()\r\n",
    "none",
    "* 1 FETCH (X ))\r\n",
    "none",
    // INTERNALDATE
    "* 1 FETCH (INTERNALDATE \" 5-Jan-2026 09:00:00 +0100\")\r\n",
    "fetch 1: internal 1767600000; ",
    "* 1 FETCH (INTERNALDATE \"31-dec-1969 23:59:59 +0000\")\r\n",
    "fetch 1: internal -1; ",
    "* 1 FETCH (INTERNALDATE \"29-Feb-2024 12:00:00 +0530\")\r\n",
    "fetch 1: internal 1709188200; ",
    "* 1 FETCH (INTERNALDATE \"29-Feb-2023 12:00:00 +0530\")\r\n",
    "fetch 1: internal 0; ",
    "* 1 FETCH (INTERNALDATE \"5-Jan-2026 09:00:00 +0100\")\r\n",
    "fetch 1: internal 0; ",
    "* 1 FETCH (INTERNALDATE \"05-Jan-2026 24:00:00 +0100\")\r\n",
    "fetch 1: internal 0; ",
    "* 1 FETCH (INTERNALDATE {26}\r\n05-Jan-2026 09:00:00 +0100)\r\n",
    "fetch 1: internal 1767600000; ",
    "* 1 FETCH (INTERNALDATE \"\")\r\n",
    "fetch 1: internal 0; ",
    "* 1 FETCH (INTERNALDATE NIL)\r\n",
    "none",
];

/// FETCH of another form, VANISHED, ESEARCH and other words: each unit, and its response as a line of text.
static SET_UNITS: [&str; 112] = [
    // FETCH with values of another form
    "* 1 FETCH (UID 4294967296)\r\n",
    "none",
    "* 1 FETCH (UID 0)\r\n",
    "none",
    "* 1 FETCH (UID x)\r\n",
    "none",
    "* 1 FETCH (MODSEQ (9223372036854775808))\r\n",
    "none",
    "* 1 FETCH (MODSEQ (0))\r\n",
    "none",
    "* 1 FETCH (MODSEQ 5)\r\n",
    "none",
    "* 1 FETCH (RFC822.SIZE 9223372036854775808)\r\n",
    "none",
    "* 1 FETCH (FLAGS \\Seen)\r\n",
    "none",
    "* 1 FETCH (FLAGS (\\Seen)\r\n",
    "none",
    "* 1 FETCH ( 1)\r\n",
    "none",
    "* 1 FETCH (UID 7  1)\r\n",
    "none",
    "* 1 FETCH ( )\r\n",
    "none",
    // FETCH with another form
    "* 1 FETCH UID 7\r\n",
    "none",
    "* 1 FETCH (UID 7) x\r\n",
    "none",
    "* 1 FETCH (UID 7 )\r\n",
    "none",
    "* 1 FETCH (UID 7  FLAGS ())\r\n",
    "none",
    "* 1 FETCH\r\n",
    "none",
    "* 1 FETCH ( )\r\n",
    "none",
    "* FETCH (UID 7)\r\n",
    "other",
    // VANISHED
    "* VANISHED 41,43:116,118\r\n",
    "vanished 41:41,43:116,118:118,",
    "* vanished (earlier) 300:310,405\r\n",
    "earlier 300:310,405:405,",
    "* VANISHED 9:7,8:10\r\n",
    "vanished 7:10,",
    "* VANISHED 4294967295:1\r\n",
    "vanished 1:4294967295,",
    "* VANISHED 7:x\r\n",
    "none",
    "* VANISHED\r\n",
    "none",
    "* VANISHED (EARLIER)\r\n",
    "none",
    "* VANISHED 1,\r\n",
    "none",
    "* VANISHED 0:5\r\n",
    "none",
    // VANISHED with another form
    "* VANISHED 1:*\r\n",
    "none",
    "* VANISHED *\r\n",
    "none",
    "* VANISHED 1 2\r\n",
    "none",
    "* VANISHED 4294967296\r\n",
    "none",
    "* VANISHED (LATER) 5\r\n",
    "none",
    // ESEARCH
    "* ESEARCH (TAG \"A7\") UID ALL 4:18,21\r\n",
    "search [A7] 4:18,21:21,",
    "* esearch (tag \"A7\") uid\r\n",
    "search [A7] none",
    "* ESEARCH (TAG A7) UID COUNT 17 all 2 MODSEQ 917162500\r\n",
    "search [A7] 2:2,",
    "* ESEARCH (TAG \"a\\\"7\") MIN 2 MAX 47\r\n",
    "search [a\"7] none",
    "* ESEARCH (TAG {2}\r\nA7)\r\n",
    "search [A7] none",
    "* ESEARCH (TAG \"A7\") UID PARTIAL (1:10 NIL) ALL 5,3\r\n",
    "search [A7] 3:3,5:5,",
    "* ESEARCH (TAG \"A7\") ALL 1 ALL 2\r\n",
    "search [A7] 2:2,",
    // ESEARCH with another form
    "* ESEARCH UID ALL 4\r\n",
    "none",
    "* ESEARCH (TAG \"A7\") UID ALL\r\n",
    "none",
    "* ESEARCH (TAG \"A7\") UID ALL 0\r\n",
    "none",
    "* ESEARCH (TAG \"A7\") UID ALL 1:2x\r\n",
    "none",
    "* ESEARCH (TAG \"A7\") ALL 1 \r\n",
    "none",
    "* ESEARCH\r\n",
    "none",
    "* ESEARCH (TAG \"A7\"\r\n",
    "none",
    // other words
    "* SOMETHING new (x\r\n",
    "other",
    "* SEARCH 1 2 3\r\n",
    "other",
    "* STATUS \"a\" (MESSAGES 5)\r\n",
    "other",
    "* NAMESPACE ((\"\" \"/\")) NIL NIL\r\n",
    "other",
    "* ID (\"name\" {4}\r\nx y)\r\n",
    "other",
    "* 5x EXISTS\r\n",
    "other",
    "* FLAGS (\\Seen)\r\n",
    "other",
    "*  OK x\r\n",
    "none",
    "* \r\n",
    "none",
];

fn text_of(alloc: Global, bytes: &[u8]) -> Result<String, Memory> {
    let text = String::from_utf8_lossy(alloc, bytes)?;
    String::from_str(alloc, &text)
}

/// The words, with `|` after each.
fn words_of(alloc: Global, words: &Slices) -> Result<String, Memory> {
    let mut text = String::new(alloc);
    for word in words.as_slice() {
        write!(text, "{}|", text_of(alloc, word)?)?;
    }
    Ok(text)
}

fn set_of(alloc: Global, set: &UidSet) -> Result<String, Memory> {
    let mut text = String::new(alloc);
    for range in set.ranges() {
        write!(text, "{}:{},", range.first, range.last)?;
    }
    Ok(text)
}

fn lent(alloc: Global, text: &Lent) -> Result<String, Memory> {
    text_of(alloc, text.as_slice())
}

fn told_text(alloc: Global, name: &str, text: &Option<Lent>) -> Result<String, Memory> {
    match text {
        None => format!(in alloc; "{name} NIL"),
        Some(text) => format!(in alloc; "{name} [{}]", lent(alloc, text)?),
    }
}

fn told_item(alloc: Global, item: &Item) -> Result<String, Memory> {
    match item {
        Item::Uid(n) => format!(in alloc; "uid {n}"),
        Item::Flags(words) => format!(in alloc; "flags {}", words_of(alloc, words)?),
        Item::Modseq(n) => format!(in alloc; "modseq {n}"),
        Item::Internal(moment) => format!(in alloc; "internal {moment}"),
        Item::Size(n) => format!(in alloc; "size {n}"),
        Item::Header(text) => told_text(alloc, "header", text),
        Item::Body(text) => told_text(alloc, "body", text),
        Item::Other => String::from_str(alloc, "other"),
    }
}

fn told_fetch(alloc: Global, number: u32, items: &Items) -> Result<String, Memory> {
    let mut text = format!(in alloc; "fetch {number}: ")?;
    for item in items.as_slice() {
        write!(text, "{}; ", told_item(alloc, item)?)?;
    }
    Ok(text)
}

fn told_search(alloc: Global, tag: &Lent, set: &Option<UidSet>) -> Result<String, Memory> {
    let tag = lent(alloc, tag)?;
    match set {
        None => format!(in alloc; "search [{tag}] none"),
        Some(set) => format!(in alloc; "search [{tag}] {}", set_of(alloc, set)?),
    }
}

fn told_vanished(alloc: Global, earlier: bool, set: &UidSet) -> Result<String, Memory> {
    let set = set_of(alloc, set)?;
    if earlier {
        return format!(in alloc; "earlier {set}");
    }
    format!(in alloc; "vanished {set}")
}

fn told_list(alloc: Global, attributes: &Slices, name: &Lent) -> Result<String, Memory> {
    format!(in alloc;
        "list {} [{}]",
        words_of(alloc, attributes)?,
        lent(alloc, name)?
    )
}

fn told_tagged(
    alloc: Global,
    tag: &[u8],
    word: Word,
    code: Option<Code>,
    text: &[u8],
) -> Result<String, Memory> {
    format!(in alloc;
        "tagged {} {word:?} {code:?} [{}]",
        text_of(alloc, tag)?,
        text_of(alloc, text)?
    )
}

fn told_state(
    alloc: Global,
    word: Word,
    code: Option<Code>,
    text: &[u8],
) -> Result<String, Memory> {
    format!(in alloc; "state {word:?} {code:?} [{}]", text_of(alloc, text)?)
}

fn told_response(alloc: Global, response: &Response) -> Result<String, Memory> {
    match response {
        Response::Continue { text } => { format!(in alloc; "continue [{}]", text_of(alloc, text)?) }
        Response::Tagged {
            tag,
            word,
            code,
            text,
        } => told_tagged(alloc, tag, *word, *code, text),
        Response::State { word, code, text } => told_state(alloc, *word, *code, text),
        Response::Capability(words) => {
            format!(in alloc; "capability {}", words_of(alloc, words)?)
        }
        Response::Enabled(words) => format!(in alloc; "enabled {}", words_of(alloc, words)?),
        Response::List { attributes, name } => told_list(alloc, attributes, name),
        Response::Exists(n) => format!(in alloc; "exists {n}"),
        Response::Expunge(n) => format!(in alloc; "expunge {n}"),
        Response::Fetch { number, items } => told_fetch(alloc, *number, items),
        Response::Vanished { earlier, set } => told_vanished(alloc, *earlier, set),
        Response::Esearch { tag, set } => told_search(alloc, tag, set),
        Response::Other => String::from_str(alloc, "other"),
    }
}

/// The response of a unit as a line of text.
fn told(alloc: Global, unit: &str) -> Result<String, Memory> {
    match read_response(alloc, unit.as_bytes())? {
        None => String::from_str(alloc, "none"),
        Some(response) => told_response(alloc, &response),
    }
}

/// Compares the response of each unit with the line after it in the table.
fn assert_rows(rt: &impl Abort, alloc: Global, table: &[&str]) -> Result<(), Fail> {
    for row in table.chunks(2) {
        match row {
            [unit, want] => assert_eq!(rt; told(alloc, *unit)?.as_str(), *want, "{unit}"),
            _ => return Err("a unit without a response".into()),
        }
    }
    Ok(())
}

#[test]
fn reads_states_and_lists(rt: HostRuntime) -> Result<(), Fail> {
    assert_rows(&rt, rt.alloc(), &STATUS_AND_LIST_UNITS)
}

#[test]
fn reads_fetches(rt: HostRuntime) -> Result<(), Fail> {
    assert_rows(&rt, rt.alloc(), &FETCH_UNITS)
}

#[test]
fn reads_sets(rt: HostRuntime) -> Result<(), Fail> {
    assert_rows(&rt, rt.alloc(), &SET_UNITS)
}

fn push_all(unit: &mut Vec<u8>, byte: u8, count: usize) -> Result<(), Memory> {
    for _ in 0..count {
        unit.push(byte)?;
    }
    Ok(())
}

#[test]
fn passes_over_lists_of_any_depth(rt: HostRuntime) -> Result<(), Fail> {
    let alloc = rt.alloc();
    let mut unit = Vec::from_slice(alloc, b"* 1 FETCH (X ")?;
    push_all(&mut unit, b'(', 100_000)?;
    push_all(&mut unit, b')', 100_000)?;
    unit.extend_from_slice(b" UID 7)\r\n")?;
    match read_response(alloc, &unit)? {
        None => assert!(rt; false),
        Some(response) => {
            assert_eq!(rt;
                told_response(alloc, &response)?.as_str(),
                "fetch 1: other; uid 7; "
            );
        }
    }
    Ok(())
}

fn lends_name(alloc: Global, unit: &str) -> Result<bool, Memory> {
    match read_response(alloc, unit.as_bytes())? {
        Some(Response::List { name, .. }) => Ok(matches!(name, Lent::Slice(_))),
        _ => Ok(false),
    }
}

#[test]
fn makes_only_texts_with_escapes(rt: HostRuntime) -> Result<(), Fail> {
    let alloc = rt.alloc();
    for (unit, lent) in [
        ("* LIST () \"/\" a\\b\r\n", true),
        ("* LIST () \"/\" \"a b\"\r\n", true),
        ("* LIST () \"/\" {3}\r\na\\b\r\n", true),
        ("* LIST () \"/\" \"a\\\\b\"\r\n", false),
    ] {
        assert_eq!(rt; lends_name(alloc, unit)?, lent, "{unit}");
    }
    Ok(())
}
