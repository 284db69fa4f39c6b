//! A moment as date and time in UTC, and as the text YYYYMMDD-HHMMSS in the name of a conflict copy.
ghost use Rattle.std.specs.Prelude.{◌≡◌, ◌++◌, ◌<◌, ◌≤◌, OnOk, codes, string_bytes};
ghost use Rattle.sync_names.specs.Utc.{utc_time, date_digits, time_digits, two_digits, IsUtc};

use jiff::Timestamp;
use jiff::tz::Offset;
use std::alloc::AllocError;
use std::fmt::Write;
use sync_version::Moment;

/// What a clock in UTC shows.
#[derive(Clone, Copy)]
pub struct UtcTime {
    /// From 1970 to 9892.
    pub year: u16,
    /// From 1 to 12.
    pub month: u8,
    /// From 1 to 31.
    pub day: u8,
    /// From 0 to 23.
    pub hour: u8,
    /// From 0 to 59.
    pub minute: u8,
    /// From 0 to 59.
    pub second: u8,
}

impl UtcTime {
    /// What the clock shows at the moment. O(1).
    pub fn at(moment: Moment) -> UtcTime
        ensures value { result ≡ utc_time moment }
        ensures shown { IsUtc moment result }
        ensures in_range { moment ≤ Moment.MAX_SECONDS }
    {
        let instant = Timestamp::from_second(moment.seconds() as i64).unwrap();
        let shown = Offset::UTC.to_datetime(instant);
        UtcTime {
            year: shown.year() as u16,
            month: shown.month() as u8,
            day: shown.day() as u8,
            hour: shown.hour() as u8,
            minute: shown.minute() as u8,
            second: shown.second() as u8,
        }
    }
}

/// Appends a date and time as YYYYMMDD-HHMMSS (ISO 8601, with `-` in place of `T`).
pub(crate) fn push_date_and_time(text: &mut String, shown: UtcTime) -> Result<(), AllocError>
    requires year { shown.year < 10000 }
    requires date { (shown.month < 100) × (shown.day < 100) }
    requires time { (shown.hour < 100) × (shown.minute < 100) × (shown.second < 100) }
    ensures { OnOk result (string_bytes text.new
        ≡ string_bytes text.old ++ (date_digits shown ++ codes "-" ++ time_digits shown)) }
{
    push_two_digits(text, (shown.year / 100) as u8)?;
    push_two_digits(text, (shown.year % 100) as u8)?;
    push_two_digits(text, shown.month)?;
    push_two_digits(text, shown.day)?;
    text.push('-')?;
    push_two_digits(text, shown.hour)?;
    push_two_digits(text, shown.minute)?;
    push_two_digits(text, shown.second)?;
    Ok(())
}

fn push_two_digits(text: &mut String, number: u8) -> Result<(), AllocError>
    requires { number < 100 }
    ensures { OnOk result (string_bytes text.new ≡ string_bytes text.old ++ two_digits number) }
{
    write!(text, "{number:02}")
}
