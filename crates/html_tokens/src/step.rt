//! Steps from token to token.
ghost use Rattle.std.specs.Prelude.{◌≡◌, ◌<◌, ◌+◌, [], true, false, drop, length, zero, IsCharBoundary, IfSome};
ghost use Rattle.html_tokens.specs.Scanned.{opens_markup as opens, opens_start, opens_end};
ghost use Rattle.html_tokens.specs.Openings.{begins_empty_tag as is_empty_tag};
ghost use Rattle.html_tokens.specs.Stepping.{IsNextStep, IsStepTo, IsNextStepAt, run_step};
ghost use Rattle.html_syntax.specs.States.{new_tag};
ghost use Rattle.html_syntax.specs.States.State.{Data, TagName, CommentStart, Bogus, DoctypeBody};
ghost use Rattle.html_syntax.specs.Tokenizer.{read};
ghost use Rattle.html_references.specs.Input.{input};
ghost use Rattle.html_tokens.specs.declared.mode.Mode.TheVariants as mode;

use crate::comments::{Cut, bogus_comment, comment, doctype_end};
use crate::markup::{Opening, empty_tags_len, opening_at};
use crate::mode::{Content, Mode, mode_after};
use crate::raw::content_end;
use crate::span::{Part, Span};
use crate::tags::{name_end, tag_end};
use crate::text::{opens_markup, text_end};
use crate::written::WrittenName;
use html_references::stretch::ReadAs;

/// The span of a token, the offset after it, and the mode there.
#[derive(Clone, Copy)]
pub struct Step {
    pub span: Span,
    pub at: usize,
    pub mode: Mode,
}

/// The step to the start tag that the text begins with. `None` if the text ends before the tag does.
fn start_step(rest: &str) -> Option<Step>
    requires opens { opens_start rest.now ≡ true }
    requires boundary { IsCharBoundary rest.now 1 }
    requires reads { read Data 0 (input rest.now) ≡ read (TagName (new_tag false)) 0 (input (drop 1 rest.now)) }
    ensures { IsNextStep rest.now mode.Data result }
{
    let inside = &rest[1..];
    let name_len = name_end(inside);
    match tag_end(&inside[name_len..]) {
        None => None,
        Some(after) => {
            let end = 1 + name_len + after;
            let name = WrittenName {
                text: &inside[..name_len],
            };
            Some(Step {
                span: Span {
                    start: 0,
                    end,
                    part: Part::StartTag,
                },
                at: end,
                mode: mode_after(&name),
            })
        }
    }
}

/// The step to the end tag that the text begins with. `None` if the text ends before the tag does.
fn end_step(rest: &str) -> Option<Step>
    requires opens { opens_end rest.now ≡ true }
    requires boundary { IsCharBoundary rest.now 2 }
    requires reads { read Data 0 (input rest.now) ≡ read (TagName (new_tag true)) 0 (input (drop 2 rest.now)) }
    ensures { IsNextStep rest.now mode.Data result }
{
    let inside = &rest[2..];
    let name_len = name_end(inside);
    match tag_end(&inside[name_len..]) {
        None => None,
        Some(after) => {
            let end = 2 + name_len + after;
            Some(Step {
                span: Span {
                    start: 0,
                    end,
                    part: Part::EndTag,
                },
                at: end,
                mode: Mode::Data,
            })
        }
    }
}

/// The step to the comment that the text begins with, whose first bytes are `<!--`.
fn comment_step(rest: &str) -> Step
    requires boundary { IsCharBoundary rest.now 4 }
    requires reads { read Data 0 (input rest.now) ≡ read (CommentStart []) 0 (input (drop 4 rest.now)) }
    ensures { IsStepTo rest.now mode.Data result }
{
    let found = comment(&rest[4..]);
    Step {
        span: Span {
            start: 0,
            end: 4 + found.end,
            part: Part::Comment(4, 4 + found.len),
        },
        at: 4 + found.end,
        mode: Mode::Data,
    }
}

/// The step to the bogus comment that the text begins with. Its own text begins at `from`.
fn bogus_step(rest: &str, from: usize) -> Step
    requires nonempty { 0 < from }
    requires boundary { IsCharBoundary rest.now from }
    requires reads { read Data 0 (input rest.now) ≡ read (Bogus []) 0 (input (drop from rest.now)) }
    ensures { IsStepTo rest.now mode.Data result }
{
    let found = bogus_comment(&rest[from..]);
    Step {
        span: Span {
            start: 0,
            end: from + found.end,
            part: Part::Comment(from, from + found.len),
        },
        at: from + found.end,
        mode: Mode::Data,
    }
}

/// The step to the DOCTYPE that the text begins with.
fn doctype_step(rest: &str) -> Step
    requires boundary { IsCharBoundary rest.now 9 }
    requires reads { read Data 0 (input rest.now) ≡ read DoctypeBody 0 (input (drop 9 rest.now)) }
    ensures { IsStepTo rest.now mode.Data result }
{
    let end = 9 + doctype_end(&rest[9..]);
    Step {
        span: Span {
            start: 0,
            end,
            part: Part::Doctype,
        },
        at: end,
        mode: Mode::Data,
    }
}

/// The step to the tag, comment or DOCTYPE that the text begins with.
fn markup_step(rest: &str) -> Option<Step>
    requires opens { opens rest.now ≡ true }
    requires nonempty { is_empty_tag rest.now ≡ false }
    ensures { IsNextStep rest.now mode.Data result }
{
    match opening_at(rest) {
        Opening::StartTag => start_step(rest),
        Opening::EndTag => end_step(rest),
        Opening::Comment => Some(comment_step(rest)),
        Opening::Question => Some(bogus_step(rest, 1)),
        Opening::Bogus => Some(bogus_step(rest, 2)),
        Opening::Doctype => Some(doctype_step(rest)),
    }
}

/// The step to a run of characters up to `end`.
fn run_step(read_as: ReadAs, end: usize) -> Step
    ensures { result ≡ run_step read_as end }
{
    Step {
        span: Span {
            start: 0,
            end,
            part: Part::Run(read_as),
        },
        at: end,
        mode: Mode::Data,
    }
}

/// The next step in a text that doesn't begin with `</>`.
fn front_step(rest: &str) -> Option<Step>
    requires { is_empty_tag rest.now ≡ false }
    ensures { IsNextStep rest.now mode.Data result }
{
    if rest.is_empty() {
        None
    } else if opens_markup(rest) {
        markup_step(rest)
    } else {
        Some(run_step(ReadAs::Text, text_end(rest)))
    }
}

/// Returns a step in the rest of a text as a step in the text.
fn step_in_text(text: &str, at: usize, mode: Mode, step: Option<Step>) -> Option<Step>
    requires boundary { IsCharBoundary text.now at }
    requires steps { IsNextStep (drop at text.now) mode step }
    ensures { IsNextStepAt text.now at mode result }
{
    match step {
        None => None,
        Some(step) => Some(Step {
            span: step.span.shift(at),
            at: at + step.at,
            mode: step.mode,
        }),
    }
}

/// The next step from an offset on in data mode.
fn data_step(text: &str, at: usize) -> Option<Step>
    requires { IsCharBoundary text.now at }
    ensures { IsNextStepAt text.now at mode.Data result }
{
    let passed = at + empty_tags_len(&text[at..]);
    step_in_text(text, passed, Mode::Data, front_step(&text[passed..]))
}

/// The step to the end of plaintext.
fn plain_step(rest: &str) -> Option<Step>
    ensures { IsNextStep rest.now mode.Plaintext result }
{
    if rest.is_empty() {
        None
    } else {
        Some(run_step(ReadAs::Raw, rest.len()))
    }
}

/// The next step from an offset on in the content of an element.
fn content_step(text: &str, at: usize, content: Content) -> Option<Step>
    requires { IsCharBoundary text.now at }
    ensures { IsNextStepAt text.now at (mode.Inside content) result }
{
    let end = content_end(content, &text[at..]);
    if end > 0 {
        let run = Some(run_step(content.read_as(), end));
        step_in_text(text, at, Mode::Inside(content), run)
    } else {
        data_step(text, at)
    }
}

/// The next step from an offset on.
pub fn step_at(text: &str, at: usize, mode: Mode) -> Option<Step>
    requires { IsCharBoundary text.now at }
    ensures { IsNextStepAt text.now at mode result }
{
    match mode {
        Mode::Data => data_step(text, at),
        Mode::Inside(content) => content_step(text, at, content),
        Mode::Plaintext => step_in_text(text, at, mode, plain_step(&text[at..])),
    }
}
