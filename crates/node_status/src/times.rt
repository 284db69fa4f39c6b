//! Moments as a person reads them, in UTC.
ghost use Rattle.std.specs.Prelude.{◌≡◌, ◌++◌, ◌<◌, ◌≤◌, OnOk, codes, string_bytes};
ghost use Rattle.sync_names.specs.Utc.{utc_time, two_digits, four_digits};
ghost use Rattle.node_status.specs.Times.{clock_text, date_text, moment_text, time_text};

use crate::numbers::{push_digit, push_number};
use jiff::Timestamp;
use jiff::tz::Offset;
use std::alloc::AllocError;
use sync_version::Moment;

/// A date of the calendar.
#[derive(Clone, Copy)]
struct Date {
    year: u16,
    month: u8,
    day: u8,
}

/// Appends a moment, as `05:03:11` where it is of the same day as another, else as `2026-12-01 05:03:11`.
pub(crate) fn push_time(text: &mut String, made: u64, seconds: u64) -> Result<(), AllocError>
    ensures { OnOk result (string_bytes text.new ≡ string_bytes text.old ++ time_text made seconds) }
{
    if seconds / 86400 == made / 86400 {
        return push_clock(text, seconds);
    }
    push_moment(text, seconds)
}

/// Appends a moment, as `2026-12-01 05:03:11`.
pub(crate) fn push_moment(text: &mut String, seconds: u64) -> Result<(), AllocError>
    ensures { OnOk result (string_bytes text.new ≡ string_bytes text.old ++ moment_text seconds) }
{
    match Moment::new(seconds) {
        Some(moment) => {
            push_date(text, date_of(moment))?;
            text.push_str(" ")?;
            push_clock(text, seconds)
        }
        None => {
            push_number(text, seconds)?;
            text.push_str(" s after 1970")
        }
    }
}

fn date_of(moment: Moment) -> Date
    ensures year { result.year ≡ (utc_time moment).year }
    ensures month { result.month ≡ (utc_time moment).month }
    ensures day { result.day ≡ (utc_time moment).day }
    ensures in_range { (result.year < 10000) × (result.month < 100) × (result.day < 100) }
{
    let instant = Timestamp::from_second(moment.seconds() as i64).unwrap();
    let shown = Offset::UTC.to_datetime(instant);
    Date {
        year: shown.year() as u16,
        month: shown.month() as u8,
        day: shown.day() as u8,
    }
}

fn push_date(text: &mut String, date: Date) -> Result<(), AllocError>
    requires { (date.year < 10000) × (date.month < 100) × (date.day < 100) }
    ensures { OnOk result (string_bytes text.new ≡ string_bytes text.old
        ++ (four_digits date.year ++ codes "-" ++ two_digits date.month ++ codes "-" ++ two_digits date.day)) }
{
    push_two_digits(text, (date.year / 100) as u8)?;
    push_two_digits(text, (date.year % 100) as u8)?;
    text.push_str("-")?;
    push_two_digits(text, date.month)?;
    text.push_str("-")?;
    push_two_digits(text, date.day)
}

fn push_clock(text: &mut String, seconds: u64) -> Result<(), AllocError>
    ensures { OnOk result (string_bytes text.new ≡ string_bytes text.old ++ clock_text seconds) }
{
    push_two_digits(text, (seconds % 86400 / 3600) as u8)?;
    text.push_str(":")?;
    push_two_digits(text, (seconds % 3600 / 60) as u8)?;
    text.push_str(":")?;
    push_two_digits(text, (seconds % 60) as u8)
}

fn push_two_digits(text: &mut String, number: u8) -> Result<(), AllocError>
    requires { number < 100 }
    ensures { OnOk result (string_bytes text.new ≡ string_bytes text.old ++ two_digits number) }
{
    push_digit(text, number / 10)?;
    push_digit(text, number % 10)
}
