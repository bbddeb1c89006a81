//! Reads a unit as a response (RFC 9051 §7).

ghost use Rattle.std.specs.Prelude.{◌≡◌};
ghost use Rattle.imap_values.specs.Words.{ParsesAs};
ghost use Rattle.imap_grammar.specs.Response.{ReadsResponse, data_of, line_of, response_of};

use crate::codes::skip_space;
use crate::response::Response;
use crate::states::tagged_response;
use crate::untagged::untagged_response;
use imap_values::ParseError;
use std::alloc::{AllocError, Global};

#[tactic(auto, unfolding(crate::specs::Response::line_of))]
fn response_line(alloc: Global, bytes: &[u8]) -> Result<Response<'_>, ParseError>
    ensures { ParsesAs data_of result (line_of bytes.now) }
{
    match bytes {
        [] => Err(ParseError::NotInGrammar),
        [b'+', text @ ..] => Ok(Response::Continue {
            text: skip_space(text),
        }),
        [b'*', b' ', rest @ ..] => untagged_response(alloc, rest),
        _ => tagged_response(bytes),
    }
}

/// Reads one whole unit, with its last CR LF, as a response. Returns `None` if and only if it is not in the grammar.
#[tactic(auto, unfolding(crate::specs::Response::response_of))]
pub fn read_response(alloc: Global, unit: &[u8]) -> Result<Option<Response<'_>>, AllocError>
    ensures { ReadsResponse result (response_of unit.now) }
{
    let len = unit.len().saturating_sub(2);
    match response_line(alloc, &unit[..len]) {
        Ok(response) => Ok(Some(response)),
        Err(ParseError::NotInGrammar) => Ok(None),
        Err(ParseError::Memory) => Err(AllocError),
    }
}
