//! The tokens of a whole text.
ghost use Rattle.std.specs.Prelude.{◌≡◌, IfOk, chars};
ghost use Rattle.html_syntax.specs.Held.{meanings};
ghost use Rattle.html_syntax.specs.Tokenizer.{tokens};

use crate::{Memory, Scanner, Token};
use std::alloc::Global;

/// Returns the tokens of a text: exactly those of the definition.
pub fn read_tokens(alloc: Global, text: &str) -> Result<Vec<Token>, Memory>
    ensures { IfOk result (λ list. meanings list.items ≡ tokens (chars text.now)) }
{
    let mut scanner = Scanner::new(text);
    let mut list = Vec::new(alloc);
    while let Some(span) = scanner.next() {
        list.push(scanner.token(alloc, &span)?)?;
    }
    Ok(list)
}
