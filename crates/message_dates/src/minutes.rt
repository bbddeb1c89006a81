//! Moments as a table shows them.
ghost use Rattle.std.specs.Prelude.{◌≡◌, IfOk, IsTrue, string_bytes, pos, ◌≤ℤ◌, take, false};
ghost use Rattle.jiff_core.specs.DateTime.{civil_nanos};
ghost use Rattle.jiff_core.specs.Timestamp.{nanos_of_seconds};
ghost use Rattle.jiff_fmt.specs.Text as Text;
ghost use Rattle.message_dates.specs.Minutes.{has_four_digits, minute_text};

use jiff_core::civil::DateTime;
use jiff_fmt::temporal::DateTimePrinter;
use std::alloc::{AllocError, Global};

/// The first and the last second of the years 0 to 9999.
const FIRST: i64 = -62_167_219_200;

const LAST: i64 = 253_402_300_799;

/// Returns a moment in seconds since 1970-01-01 00:00 UTC as `2026-01-01 00:00` in UTC, or `-` if its year doesn't have four
/// digits.
pub fn minute_text(alloc: Global, instant: i64) -> Result<String, AllocError>
    ensures { IfOk result (λ text. string_bytes text ≡ minute_text instant) }
{
    if !has_four_digits(instant) {
        return String::from_str(alloc, "-");
    }
    clock_text(alloc, clock_at(instant))
}

/// Returns whether the year of a moment has four digits.
fn has_four_digits(instant: i64) -> bool
    ensures { result ≡ has_four_digits instant }
{
    FIRST <= instant && instant <= LAST
}

/// Returns what a clock at UTC shows.
fn clock_at(instant: i64) -> DateTime
    requires { IsTrue (has_four_digits instant) }
    ensures { civil_nanos result ≡ nanos_of_seconds instant }
{
    DateTime::from_nanosecond_in_range(instant as i128 * 1_000_000_000)
}

/// Returns the day, the hour and the minute of a clock.
fn clock_text(alloc: Global, clock: DateTime) -> Result<String, AllocError>
    requires { pos 0 ≤ℤ clock.date.year }
    ensures { IfOk result (λ text. string_bytes text ≡ take 16 (Text.datetime_text false 32 None clock)) }
{
    let text = DateTimePrinter::new().separator(b' ').datetime_text(clock);
    String::from_str(alloc, &text.as_str()[..16])
}
