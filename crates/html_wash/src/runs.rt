//! The characters of runs.
ghost use Rattle.std.specs.Prelude.{◌≡◌, chars, OnOk};
ghost use Rattle.html_syntax.specs.Held.{meaning};
ghost use Rattle.html_tokens.specs.Scanned.{span_tokens, IsSpan};
ghost use Rattle.page_writer.specs.Writer.{with_text};
ghost use Rattle.html_wash.specs.Writing.{IfCharacters};

use crate::Memory;
use html_tokens::{Lexeme, Scanner, Span, Token};
use page_writer::PageOut;
use std::alloc::Global;

/// The characters of a token, empty if it is another one.
pub fn token_text(token: &Token) -> &str
    ensures { IfCharacters (meaning token.now) (λ cs. chars result.now ≡ cs) }
{
    match token {
        Token::Chars(text) => text.as_str(),
        _ => "",
    }
}

/// Writes the characters of a run.
pub fn write_run(
    alloc: Global,
    scanner: &Scanner,
    span: &Span,
    out: &mut PageOut,
) -> Result<(), Memory>
    requires { IsSpan scanner.now.text span.now }
    ensures { OnOk result (IfCharacters (span_tokens scanner.now.text span.now) (λ cs. out.new ≡ with_text out.old cs)) }
{
    match scanner.piece(alloc, span)? {
        Lexeme::Lent(text) => out.chars(text),
        Lexeme::Made(token) => out.chars(token_text(&token)),
    }
}
