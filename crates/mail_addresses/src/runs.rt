//! Runs of bytes at the front of a text.
ghost use Rattle.std.specs.Prelude.{◌≡◌, ◌≤◌, ◌-◌, ◌<◌, length, slice_index};
ghost use Rattle.std.specs.List.{prefix_len, suffix_len};
ghost use Rattle.mail_addresses.specs.Runs.{ReadsAs, begins_with, byte_at, in_class, is_alphanumeric, is_local, is_run, is_space, rest_of, run_at, strip_at, take_while_at, skip_spaces, trim_end};

use crate::reading::Stop;

/// The classes of bytes that the parts of a list are made of.
#[derive(Clone, Copy)]
pub enum Class {
    Space,
    Local,
    Domain,
    /// A byte of a name that is not a quoted string.
    Name,
    /// A byte of a quoted string that is itself.
    Quoted,
}

fn is_alphanumeric(byte: u8) -> bool
    ensures { result ≡ is_alphanumeric byte }
{
    (b'a' <= byte && byte <= b'z')
        || (b'A' <= byte && byte <= b'Z')
        || (b'0' <= byte && byte <= b'9')
}

#[tactic(auto, unfolding(crate::specs::Runs::is_local))]
fn is_local(byte: u8) -> bool
    ensures { result ≡ is_local byte }
{
    is_alphanumeric(byte) || b".!#$%&'*+-/=?^_`{|}~".contains(&byte)
}

impl Class {
    fn in_class(self, byte: u8) -> bool
        ensures { result ≡ in_class self byte }
    {
        match self {
            Class::Space => byte == b' ',
            Class::Local => is_local(byte),
            Class::Domain => is_alphanumeric(byte) || byte == b'-' || byte == b'.',
            Class::Name => !(byte == b','
                || byte == b'<'
                || byte == b'>'
                || byte == b'"'
                || byte == b'@'),
            Class::Quoted => !(byte == b'"' || byte == b'\\'),
        }
    }
}

fn class_len(class: Class, text: &str) -> usize
    ensures len { result ≡ prefix_len (in_class class) text.now }
    ensures within { result ≤ length text.now }
{
    let bytes = text.as_bytes();
    for (i, byte) in bytes.iter().enumerate() {
        if !class.in_class(*byte) {
            return i;
        }
    }
    bytes.len()
}

/// Splits after the longest prefix of bytes in a class.
pub fn take_while(class: Class, text: &str) -> (&str, &str)
    ensures run { result.0.now ≡ (take_while_at class text.now).0 }
    ensures rest { result.1.now ≡ (take_while_at class text.now).1 }
    ensures shorter { length result.1.now ≤ length text.now }
{
    text.split_at(class_len(class, text))
}

/// Splits after the longest prefix of bytes in a class, which has 1 to `most` of them.
pub fn take_run(class: Class, most: usize, text: &str) -> Result<(&str, &str), Stop>
    ensures { ReadsAs (λ x. (x.0.now, x.1.now)) result (run_at class most text.now) }
{
    let len = class_len(class, text);
    if len == 0 {
        return Err(Stop::Before { left: text.len() });
    }
    if most < len {
        return Err(Stop::Before {
            left: text.len() - most,
        });
    }
    Ok(text.split_at(len))
}

/// Whether a text has 1 to `most` bytes, all of a class.
pub fn is_run(class: Class, most: usize, text: &str) -> bool
    ensures { result ≡ is_run class most text.now }
{
    let len = class_len(class, text);
    0 < len && len <= most && len == text.len()
}

/// The text after the spaces at its front.
pub fn skip_spaces(text: &str) -> &str
    ensures { result.now ≡ skip_spaces text.now }
{
    let (_, rest) = take_while(Class::Space, text);
    rest
}

/// The length of a text without the spaces at its end.
fn trimmed_len(text: &str) -> usize
    ensures len { result ≡ length text.now - suffix_len is_space text.now }
    ensures within { result ≤ length text.now }
    ensures edge { result < length text.now → slice_index text.now result ≡ 32 }
{
    let bytes = text.as_bytes();
    let mut len = bytes.len();
    while len > 0 {
        if bytes[len - 1] != b' ' {
            return len;
        }
        len -= 1;
    }
    len
}

/// The text without the spaces at its end.
pub fn trim_end(text: &str) -> &str
    ensures { result.now ≡ trim_end text.now }
{
    let (trimmed, _) = text.split_at(trimmed_len(text));
    trimmed
}

/// Whether a text begins with this byte.
pub fn begins_with(byte: u8, text: &str) -> bool
    ensures { result ≡ begins_with byte text.now }
{
    match text.as_bytes() {
        [first, ..] => *first == byte,
        _ => false,
    }
}

/// The text after its first byte, if that is `byte`.
pub fn strip_byte(byte: char, text: &str) -> Option<&str>
    requires { byte < 128 }
    ensures { rest_of result ≡ strip_at byte text.now }
{
    match text.strip_prefix(byte) {
        Some(rest) => Some(rest),
        None => None,
    }
}

/// The text after its first byte, which has to be `wanted`.
pub fn expect_byte(wanted: char, text: &str) -> Result<&str, Stop>
    requires { wanted < 128 }
    ensures { ReadsAs (λ x. x.now) result (byte_at wanted text.now) }
{
    match strip_byte(wanted, text) {
        Some(rest) => Ok(rest),
        None => Err(Stop::Before { left: text.len() }),
    }
}
