//! The moment of an INTERNALDATE (RFC 9051 §9, date-time).

ghost use Rattle.std.specs.Prelude.{◌≡◌, length};
ghost use Rattle.imap_values.specs.Dates.{matches_mark, match_marks, moment_of};

use jiff::Timestamp;
use jiff::fmt::rfc2822::DateTimeParser;

/// Whether a byte matches a mark of the shape.
fn matches_mark(mark: u8, byte: u8) -> bool
    ensures { result ≡ matches_mark mark byte }
{
    match mark {
        b'd' => byte.is_ascii_digit(),
        b'D' => byte == b' ' || byte.is_ascii_digit(),
        b'a' => byte.is_ascii_alphabetic(),
        b's' => byte == b'+' || byte == b'-',
        _ => byte == mark,
    }
}

fn has_shape(marks: &[u8], text: &[u8]) -> bool
    requires { length marks.now ≡ length text.now }
    ensures { result ≡ match_marks marks.now text.now }
{
    for i in 0..marks.len() {
        if !matches_mark(marks[i], text[i]) {
            return false;
        }
    }
    true
}

/// Returns the moment of a date-time in seconds since 1970-01-01 00:00 UTC, or 0 if the text names none.
#[tactic(auto, unfolding(crate::specs::Dates::moment_of))]
pub fn moment(text: &[u8]) -> i64
    ensures { result ≡ moment_of text.now }
{
    if text.len() != 26 || !has_shape(b"Dd-aaa-dddd dd:dd:dd sdddd", text) {
        return 0;
    }
    let mut date = [b' '; 26];
    date.copy_from_slice(text);
    date[2] = b' ';
    date[6] = b' ';
    match DateTimeParser::new().parse_timestamp(&date) {
        Ok(instant) => Timestamp::from_plain(instant).as_second(),
        Err(_) => 0,
    }
}
