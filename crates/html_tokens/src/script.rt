//! The content of a script, with its escapes (HTML Standard 13.2.5.4, and 13.2.5.15 to 13.2.5.31).
ghost use Rattle.std.specs.Prelude.{◌≡◌, ◌++◌, ◌<◌, length, take, drop, true, false, codes, zero, map, IsCharBoundary};
ghost use Rattle.html_syntax.specs.States.State.{Data};
ghost use Rattle.html_tokens.specs.Cuts.{LacksByte};
ghost use Rattle.html_syntax.specs.Tokenizer.{read, chars as char_tokens};
ghost use Rattle.html_references.specs.Input.{input};
ghost use Rattle.html_tokens.specs.Scripts.{script_state, ReadsPassage, BeginsWithMark, LacksMarks, ends_script};
ghost use Rattle.html_syntax.specs.States.{replace_null};
ghost use Rattle.html_tokens.specs.Contents.{begins_end_tag as content_closes};
ghost use Rattle.html_tokens.specs.declared.script.Phase.TheVariants.{Plain, Escaped, DoubleEscaped};
ghost use Rattle.html_tokens.specs.declared.mode.Content.TheVariants.{Script};

use crate::cuts::skip_to_byte;
use crate::mode::Content;
use crate::raw::{begins_end_tag, begins_with_name};
use html_references::prefixes::begins_with;
use memchr::memchr2;

/// The phase of a script: plain, escaped after `<!--`, or escaped twice after a `<script` in there.
#[derive(Clone, Copy)]
pub enum Phase {
    Plain,
    Escaped,
    DoubleEscaped,
}

/// The length of a part of a script, and the phase after it.
#[derive(Clone, Copy)]
pub struct Passage {
    pub len: usize,
    pub phase: Phase,
}

/// Whether the text begins with the end tag of the script. In a double escape no end tag ends it.
fn ends_script(phase: Phase, rest: &str) -> bool
    ensures { result ≡ ends_script phase rest.now }
{
    match phase {
        Phase::Plain | Phase::Escaped => begins_end_tag(Content::Script, rest),
        Phase::DoubleEscaped => false,
    }
}

/// Reads a mark of a plain script: `<!--` begins an escape. Its hyphens are left, since a `-->` may begin with them.
fn read_plain_mark(rest: &str) -> Passage
    requires begins { BeginsWithMark rest.now }
    requires nonempty { 0 < length rest.now }
    requires not_ended { ends_script Plain rest.now ≡ false }
    ensures nonempty { 0 < result.len }
    ensures boundary { IsCharBoundary rest.now result.len }
    ensures plain { LacksByte 13 (take result.len rest.now) }
    ensures reads { ReadsPassage Plain rest.now result.len result.phase }
{
    let bytes = rest.as_bytes();
    if begins_with(b"<!--", bytes) {
        Passage {
            len: 2,
            phase: Phase::Escaped,
        }
    } else {
        Passage {
            len: 1,
            phase: Phase::Plain,
        }
    }
}

/// Reads a mark of an escaped script: `-->` ends the escape, and `<script` begins another in it. What ends the name of the
/// `<script` is left.
fn read_escaped_mark(rest: &str) -> Passage
    requires begins { BeginsWithMark rest.now }
    requires nonempty { 0 < length rest.now }
    requires not_ended { ends_script Escaped rest.now ≡ false }
    ensures nonempty { 0 < result.len }
    ensures boundary { IsCharBoundary rest.now result.len }
    ensures plain { LacksByte 13 (take result.len rest.now) }
    ensures reads { ReadsPassage Escaped rest.now result.len result.phase }
{
    let bytes = rest.as_bytes();
    if begins_with(b"-->", bytes) {
        Passage {
            len: 3,
            phase: Phase::Plain,
        }
    } else if begins_with_name(b"<script", bytes) {
        Passage {
            len: 7,
            phase: Phase::DoubleEscaped,
        }
    } else {
        Passage {
            len: 1,
            phase: Phase::Escaped,
        }
    }
}

/// Reads a mark of a script that is escaped twice: `-->` ends both escapes, and `</script` the inner one.
fn read_double_mark(rest: &str) -> Passage
    requires begins { BeginsWithMark rest.now }
    requires nonempty { 0 < length rest.now }
    requires not_ended { ends_script DoubleEscaped rest.now ≡ false }
    ensures nonempty { 0 < result.len }
    ensures boundary { IsCharBoundary rest.now result.len }
    ensures plain { LacksByte 13 (take result.len rest.now) }
    ensures reads { ReadsPassage DoubleEscaped rest.now result.len result.phase }
{
    let bytes = rest.as_bytes();
    if begins_with(b"-->", bytes) {
        Passage {
            len: 3,
            phase: Phase::Plain,
        }
    } else if begins_with_name(b"</script", bytes) {
        Passage {
            len: 8,
            phase: Phase::Escaped,
        }
    } else {
        Passage {
            len: 1,
            phase: Phase::DoubleEscaped,
        }
    }
}

/// Reads the mark that the text begins with: a prefix that may change the phase, and the phase after it.
fn read_mark(phase: Phase, rest: &str) -> Passage
    requires begins { BeginsWithMark rest.now }
    requires nonempty { 0 < length rest.now }
    requires not_ended { ends_script phase rest.now ≡ false }
    ensures nonempty { 0 < result.len }
    ensures boundary { IsCharBoundary rest.now result.len }
    ensures plain { LacksByte 13 (take result.len rest.now) }
    ensures reads { ReadsPassage phase rest.now result.len result.phase }
{
    match phase {
        Phase::Plain => read_plain_mark(rest),
        Phase::Escaped => read_escaped_mark(rest),
        Phase::DoubleEscaped => read_double_mark(rest),
    }
}

/// The offset of the first `<` or `-`, or the text's length.
fn skip_to_mark(rest: &str) -> usize
    ensures boundary { IsCharBoundary rest.now result }
    ensures lacks { LacksMarks (take result rest.now) }
    ensures begins { BeginsWithMark (drop result rest.now) }
{
    memchr2(b'<', b'-', rest.as_bytes()).unwrap_or(rest.len())
}

/// The offset of the next byte that may change the phase, or the text's length.
fn skip_to_next(phase: Phase, rest: &str) -> usize
    ensures boundary { IsCharBoundary rest.now result }
    ensures marks { BeginsWithMark (drop result rest.now) }
    ensures reads { ReadsPassage phase rest.now result phase }
{
    match phase {
        Phase::Plain => skip_to_byte(b'<', rest),
        Phase::Escaped | Phase::DoubleEscaped => skip_to_mark(rest),
    }
}

/// Reads a mark and the text after it, up to the next byte that may change the phase.
fn read_passage(phase: Phase, rest: &str) -> Passage
    requires begins { BeginsWithMark rest.now }
    requires nonempty { 0 < length rest.now }
    requires not_ended { ends_script phase rest.now ≡ false }
    ensures nonempty { 0 < result.len }
    ensures boundary { IsCharBoundary rest.now result.len }
    ensures marks { BeginsWithMark (drop result.len rest.now) }
    ensures reads { ReadsPassage phase rest.now result.len result.phase }
{
    let mark = read_mark(phase, rest);
    Passage {
        len: mark.len + skip_to_next(mark.phase, &rest[mark.len..]),
        phase: mark.phase,
    }
}

/// The length of a script's content.
pub fn script_end(rest: &str) -> usize
    ensures boundary { IsCharBoundary rest.now result }
    ensures reads { read (script_state Plain) 0 (input rest.now) ≡ char_tokens (map replace_null (input (take result rest.now))) ++ read Data 0 (input (drop result rest.now)) }
    ensures ends { result < length rest.now → content_closes Script (drop result rest.now) ≡ true }
{
    let mut phase = Phase::Plain;
    let mut at = skip_to_next(phase, rest);
    while at < rest.len() && !ends_script(phase, &rest[at..]) {
        let step = read_passage(phase, &rest[at..]);
        at += step.len;
        phase = step.phase;
    }
    at
}
