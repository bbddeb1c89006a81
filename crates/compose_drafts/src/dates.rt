//! The date of a message.
ghost use Rattle.std.specs.Prelude.{◌≡◌, ◌++◌, ◌<◌, ◌-◌, pos, OnOk, IsTrue, ◌↔◌};
ghost use Rattle.jiff_core.specs.DateTime.{civil_nanos};
ghost use Rattle.jiff_core.specs.Weekday.{monday_zero};
ghost use Rattle.jiff_fmt.specs.Rfc2822.{month_text, weekday_text};
ghost use Rattle.jiff_fmt.specs.Text.{pad2, pad4};
ghost use Rattle.compose_drafts.specs.Moments.{IsWritable, Shows, date_text, day_text, time_text};

use jiff_core::civil::{Date, DateTime, Time, Weekday};
use std::alloc::AllocError;

/// The first and the last second of the years 0 to 9999.
const FIRST: i64 = -62_167_219_200;

const LAST: i64 = 253_402_300_799;

/// Whether the year of a moment has four digits.
fn is_writable(moment: i64) -> bool
    ensures { IsTrue result ↔ IsWritable moment }
{
    FIRST <= moment && moment <= LAST
}

/// What a clock at UTC shows at a moment, or at the first of 1970 if the year hasn't four digits.
pub fn clock_at(moment: i64) -> DateTime
    ensures { Shows moment result }
{
    if is_writable(moment) {
        return DateTime::from_nanosecond_in_range(moment as i128 * 1_000_000_000);
    }
    DateTime::from_nanosecond_in_range(0)
}

fn weekday_name(weekday: Weekday) -> &'static [u8]
    ensures { result.now ≡ weekday_text (monday_zero weekday) }
{
    match weekday {
        Weekday::Monday => b"Mon",
        Weekday::Tuesday => b"Tue",
        Weekday::Wednesday => b"Wed",
        Weekday::Thursday => b"Thu",
        Weekday::Friday => b"Fri",
        Weekday::Saturday => b"Sat",
        Weekday::Sunday => b"Sun",
    }
}

fn month_name(month: u8) -> &'static [u8]
    ensures { result.now ≡ month_text month }
{
    match month {
        0 | 1 => b"Jan",
        2 => b"Feb",
        3 => b"Mar",
        4 => b"Apr",
        5 => b"May",
        6 => b"Jun",
        7 => b"Jul",
        8 => b"Aug",
        9 => b"Sep",
        10 => b"Oct",
        11 => b"Nov",
        _ => b"Dec",
    }
}

/// Appends a number in two digits.
fn push_pad2(out: &mut Vec<u8>, number: u8) -> Result<(), AllocError>
    requires { number < 100 }
    ensures { OnOk result (out.new.items ≡ out.old.items ++ pad2 number) }
{
    out.extend_from_slice(&[b'0' + number / 10, b'0' + number % 10])
}

/// Appends a number in four digits.
fn push_pad4(out: &mut Vec<u8>, number: u16) -> Result<(), AllocError>
    requires { number < 10000 }
    ensures { OnOk result (out.new.items ≡ out.old.items ++ pad4 number) }
{
    push_pad2(out, (number / 100) as u8)?;
    push_pad2(out, (number % 100) as u8)
}

/// Appends a day, a month and a year.
fn push_day(out: &mut Vec<u8>, date: Date) -> Result<(), AllocError>
    ensures { OnOk result (out.new.items ≡ out.old.items ++ day_text date) }
{
    push_pad2(out, date.day)?;
    out.extend_from_slice(b" ")?;
    out.extend_from_slice(month_name(date.month))?;
    out.extend_from_slice(b" ")?;
    push_pad4(out, date.year.unsigned_abs())?;
    Ok(())
}

/// Appends hours, minutes and seconds.
fn push_time(out: &mut Vec<u8>, time: Time) -> Result<(), AllocError>
    ensures { OnOk result (out.new.items ≡ out.old.items ++ time_text time) }
{
    push_pad2(out, time.hour)?;
    out.extend_from_slice(b":")?;
    push_pad2(out, time.minute)?;
    out.extend_from_slice(b":")?;
    push_pad2(out, time.second)
}

/// Appends the date of a message.
#[tactic(auto, unfolding(crate::specs::Moments::date_text))]
pub fn push_date(out: &mut Vec<u8>, clock: DateTime) -> Result<(), AllocError>
    ensures { OnOk result (out.new.items ≡ out.old.items ++ date_text clock) }
{
    out.extend_from_slice(weekday_name(clock.date.weekday()))?;
    out.extend_from_slice(b", ")?;
    push_day(out, clock.date)?;
    out.extend_from_slice(b" ")?;
    push_time(out, clock.time)?;
    out.extend_from_slice(b" +0000")
}
