//! Types that have parts in them (RFC 2046 §5).
ghost use Rattle.std.specs.Prelude.{◌≡◌};
ghost use Rattle.mime_tree.specs.Content.{is_multipart, is_message, is_alternative};

use mime_content::Content;

/// Returns whether a type is that of a multipart.
pub fn has_parts(mime: &str) -> bool
    ensures { result ≡ is_multipart mime.now }
{
    mime.as_bytes().starts_with(b"multipart/")
}

/// Returns whether a type is that of a message.
pub fn has_message(mime: &str) -> bool
    ensures { result ≡ is_message mime.now }
{
    mime == "message/rfc822"
}

pub fn is_multipart(content: &Content) -> bool
    ensures { result ≡ is_multipart content.now.mime }
{
    has_parts(content.mime.as_str())
}

pub fn is_message(content: &Content) -> bool
    ensures { result ≡ is_message content.now.mime }
{
    has_message(content.mime.as_str())
}

pub fn is_alternative(content: &Content) -> bool
    ensures { result ≡ is_alternative content.now.mime }
{
    content.mime.as_str() == "multipart/alternative"
}
