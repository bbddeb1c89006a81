//! The cookie of a request.
ghost use Rattle.std.specs.Prelude.{◌≡◌, ◌<◌, ◌∷◌, IfSome, length};
ghost use Rattle.std.specs.Option.{option_copied};
ghost use Rattle.http_routes.specs.Cookies.{cookie_value, first_cookie, is_cookie_name, pieces_after, pieces_of};

use header_words::{find_byte, trim};

fn is_cookie_name(name: &[u8]) -> bool
    ensures { result ≡ is_cookie_name name.now }
{
    trim(name) == b"wm".as_slice()
}

/// Returns the value of a piece that is a name, `=` and a value, if the name is the cookie's.
fn cookie_value(piece: &[u8]) -> Option<&[u8]>
    ensures { option_copied result ≡ cookie_value piece.now }
{
    let at = find_byte(b'=', piece);
    if at < piece.len() && is_cookie_name(&piece[..at]) {
        return Some(trim(&piece[at + 1..]));
    }
    None
}

/// Returns the first piece of a value, and what comes after it.
fn split_piece(value: &[u8]) -> (&[u8], Option<&[u8]>)
    ensures pieces { pieces_of value.now ≡ result.0.now ∷ pieces_after (option_copied result.1) }
    ensures shorter { IfSome result.1 (λ rest. length rest.now < length value.now) }
{
    let at = find_byte(b';', value);
    if at < value.len() {
        return (&value[..at], Some(&value[at + 1..]));
    }
    (value, None)
}

/// Returns the cookie that the value of a Cookie field has.
pub fn cookie_in(value: &[u8]) -> Option<&[u8]>
    ensures { option_copied result ≡ first_cookie (pieces_of value.now) }
{
    let mut rest = Some(value);
    'pieces: while let Some(text) = rest {
        let (piece, more) = split_piece(text);
        if let Some(cookie) = cookie_value(piece) {
            return Some(cookie);
        }
        rest = more;
    }
    None
}
