//! The moment at which a message was sent.
ghost use Rattle.std.specs.Prelude.{◌≡◌, IfOk, false};
ghost use Rattle.jiff_fmt.specs.Rfc2822.{timestamp};
ghost use Rattle.message_dates.specs.Sent.{seconds_or, sent_of};

use header_words::{Fields, unfolded};
use jiff::Timestamp;
use jiff::fmt::rfc2822::DateTimeParser;
use std::alloc::{AllocError, Global};

/// Returns the moment of the first Date field in seconds since 1970-01-01 00:00 UTC. A message without one, or with one that
/// isn't a date, has the moment `internal`, at which its server received it.
#[tactic(auto, unfolding(crate::specs::Sent::sent_of))]
pub fn sent_instant(alloc: Global, fields: &Fields<'_>, internal: i64) -> Result<i64, AllocError>
    ensures { IfOk result (λ instant. instant ≡ sent_of fields.now internal) }
{
    match fields.first("Date") {
        Some(date) => {
            let value = unfolded(alloc, &date)?;
            Ok(seconds_or(&value, internal))
        }
        None => Ok(internal),
    }
}

/// Returns the seconds of a date, or else the other moment.
fn seconds_or(date: &[u8], other: i64) -> i64
    ensures { result ≡ seconds_or other (timestamp false date.now) }
{
    match DateTimeParser::new().parse_timestamp(date) {
        Ok(instant) => Timestamp::from_plain(instant).as_second(),
        Err(_) => other,
    }
}
