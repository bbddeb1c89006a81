//! The scanner: spans of tokens, and tokens on demand.
ghost use Rattle.std.specs.Prelude.{◌≡◌, ◌≢◌, ◌≤◌, ◌++◌, ◌∷◌, [], true, false, zero, take, IfOk, IsOk, IfSome, None, MatchOption, chars};
ghost use Rattle.html_syntax.specs.States.State.{Data as InData};
ghost use Rattle.html_syntax.specs.Tokenizer.{read, chars as char_tokens};
ghost use Rattle.html_syntax.specs.Held.{meaning};
ghost use Rattle.html_references.specs.Input.{input, read_as as what_is_read};
ghost use Rattle.html_syntax.specs.Token.Token.{Start, End};
ghost use Rattle.html_tokens.specs.Attributes.{first_of_each};
ghost use Rattle.html_tokens.specs.Lexemes.{lexeme_tokens, is_lent, is_plain_run, span_bytes, LendsBytes};
ghost use Rattle.html_tokens.specs.Scanned.{tokens_left, span_tokens, IsSpan, GivesToken, opens_start, opens_end};
ghost use Rattle.html_tokens.specs.Stepping.{SkipsNoToken, RunEndsAtMarkup, RunBeginsOutsideMarkup, RunLeavesData};
ghost use Rattle.html_tokens.specs.declared.mode.Mode.TheVariants.{Data};

use crate::attribute_list::attributes;
use crate::lexeme::{Lexeme, is_plain};
use crate::mode::Mode;
use crate::span::{Part, Span};
use crate::start_tag::StartTag;
use crate::step::step_at;
use crate::tags::name_end;
use crate::written::WrittenName;
use crate::{Memory, Token};
use html_references::stretch::{ReadAs, read_stretch};
use mail_values::Text;
use std::alloc::Global;
use std::marker::Model;

/// Splits a text into the spans of its tokens. It is seen as the text, the offset of the next byte, and the mode in which the rest is
/// read.
///
/// CR LF and CR are read as LF.
#[derive(Drop)]
pub struct Scanner<'t> {
    text: &'t str,
    at: usize,
    mode: Mode,
}

impl<'t> Model for Scanner<'t> {
    ghost use Rattle.std.specs.Prelude.{IsCharBoundary};
    ghost use Rattle.html_tokens.specs.Scanned.{ScannerState};

    ghost Value = { ScannerState };

    ghost view = { λ s. record { text = s.text.now; at = s.at; mode = s.mode } };

    ghost invariant = { λ s. IsCharBoundary s.text.now s.at };
}

impl<'t> Scanner<'t> {
    /// Returns a scanner before the text's first token.
    pub fn new(text: &'t str) -> Self
        ensures text { result.text ≡ text.now }
        ensures at { result.at ≡ 0 }
        ensures mode { result.mode ≡ Data }
    {
        Scanner {
            text,
            at: 0,
            mode: Mode::Data,
        }
    }

    /// Returns the span of the next token; a run of characters is one span. `None` means that no token remains.
    ///
    /// Each call splits the remaining tokens into the span's tokens, one at least, and the rest. It takes no memory.
    pub fn next(&mut self) -> Option<Span>
        ensures text { self.new.text ≡ self.old.text }
        ensures reads { MatchOption result (tokens_left self.old ≡ []) (λ span. tokens_left self.old ≡ span_tokens self.old.text span ++ tokens_left self.new) }
        ensures iff_none { MatchOption result (tokens_left self.old ≡ []) (λ span. tokens_left self.old ≢ []) }
        ensures nonempty { IfSome result (λ span. span_tokens self.old.text span ≢ []) }
        ensures is_span { IfSome result (λ span. IsSpan self.old.text span) }
        ensures advances { IfSome result (λ span. self.old.at ≤ span.start) }
        ensures skips_no_token { IfSome result (λ span. SkipsNoToken self.old.text self.old.at self.old.mode span.start) }
        ensures ends_at_place { IfSome result (λ span. span.end ≡ self.new.at) }
        ensures run_ends_at_markup { IfSome result (λ span. RunEndsAtMarkup self.old.text span.part span.end) }
        ensures run_begins_outside_markup { IfSome result (λ span. RunBeginsOutsideMarkup self.old.text self.old.mode span.part span.start) }
        ensures run_leaves_data { IfSome result (λ span. RunLeavesData span.part self.new.mode) }
        ensures unchanged_on_none { result ≡ None → self.new ≡ self.old }
    {
        match step_at(self.text, self.at, self.mode) {
            None => None,
            Some(step) => {
                self.at = step.at;
                self.mode = step.mode;
                Some(step.span)
            }
        }
    }

    /// Lends a run of characters that has no `&`, CR and U+0000, which takes no memory. Any other span's token is made.
    pub fn piece(&self, alloc: Global, span: &Span) -> Result<Lexeme<'t>, Memory>
        requires { IsSpan self.now.text span.now }
        ensures tokens { IfOk result (λ piece. lexeme_tokens piece ≡ span_tokens self.now.text span.now) }
        ensures lent { IfOk result (λ piece. is_lent piece ≡ is_plain_run self.now.text span.now) }
        ensures lends { IfOk result (λ piece. LendsBytes (span_bytes self.now.text span.now) piece) }
        ensures succeeds { is_plain_run self.now.text span.now ≡ true → IsOk result }
    {
        let Part::Run(_) = span.part else {
            return Ok(Lexeme::Made(self.token(alloc, span)?));
        };
        let run = &self.text[span.start..span.end];
        if is_plain(run) {
            Ok(Lexeme::Lent(run))
        } else {
            Ok(Lexeme::Made(self.token(alloc, span)?))
        }
    }

    /// Returns the start tag of a span in place, with all its attributes. The token has the first of each name.
    pub fn start_tag(&self, span: &Span) -> StartTag<'t>
        requires span { IsSpan self.now.text span.now }
        requires part { span.now.part ≡ Part.StartTag }
        ensures { span_tokens self.now.text span.now ≡ Start result.name (first_of_each result.attributes) ∷ [] }
    {
        let rest = &self.text[span.start..];
        let inside = &rest[1..];
        let len = name_end(inside);
        StartTag {
            name: &inside[..len],
            rest: &inside[len..],
        }
    }

    /// Returns the name of the end tag of a span in place.
    pub fn end_tag(&self, span: &Span) -> WrittenName<'t>
        requires span { IsSpan self.now.text span.now }
        requires part { span.now.part ≡ Part.EndTag }
        ensures { span_tokens self.now.text span.now ≡ End result ∷ [] }
    {
        let rest = &self.text[span.start..];
        let inside = &rest[2..];
        WrittenName {
            text: &inside[..name_end(inside)],
        }
    }

    /// Returns the token of a span that this scanner returned.
    pub fn token(&self, alloc: Global, span: &Span) -> Result<Token, Memory>
        requires { IsSpan self.now.text span.now }
        ensures { IfOk result (λ token. meaning token ≡ span_tokens self.now.text span.now) }
    {
        match span.part {
            Part::Run(read_as) => {
                let run = read_stretch(alloc, read_as, &self.text[span.start..span.end])?;
                Ok(Token::Chars(Text::from_string(run)))
            }
            Part::StartTag => start_token(alloc, &self.start_tag(span), span.end - span.start),
            Part::EndTag => {
                let name = self.end_tag(span).to_string(alloc)?;
                Ok(Token::End {
                    name: Text::from_string(name),
                })
            }
            Part::Comment(from, to) => {
                let comment = read_stretch(alloc, ReadAs::Raw, &self.text[from..to])?;
                Ok(Token::Comment(Text::from_string(comment)))
            }
            Part::Doctype => Ok(Token::Doctype),
        }
    }
}

/// The usual least length of an attribute in bytes.
const USUAL_ATTRIBUTE: usize = 12;

/// Returns the token of a start tag of `len` bytes.
fn start_token(alloc: Global, tag: &StartTag<'_>, len: usize) -> Result<Token, Memory>
    ensures { IfOk result (λ token. meaning token ≡ Start tag.now.name (first_of_each tag.now.attributes) ∷ []) }
{
    let name = Text::from_string(tag.name().to_string(alloc)?);
    let attributes = attributes(alloc, tag.attributes(), len / USUAL_ATTRIBUTE)?;
    Ok(Token::Start { name, attributes })
}
