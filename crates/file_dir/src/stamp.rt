//! The mark of a version's name: a moment, as a clock in UTC shows it.
ghost use Rattle.std.specs.Prelude.{◌≡◌, ◌/◌, ◌%◌, ◌+◌, ◌<◌, ◌≤◌, ◌≤ℤ◌, ℕ, pos, IfSome, Some};
ghost use Rattle.std.specs.Str.{IsAscii};
ghost use Rattle.file_dir.specs.Versions.{version_mark, IsShown};
ghost use Rattle.sync_names.specs.Utc.{two_digits, IsUtc};
ghost use Rattle.sync_names.specs.declared.utc.UtcTime.{UtcTime};

use jiff::Timestamp;
use jiff::civil::DateTime;
use jiff::tz::Offset;
use sync_version::Moment;

/// The bytes of a mark.
pub(crate) const MARK: usize = 16;

/// A moment's mark: `~`, and the moment in UTC as YYYYMMDD-HHMMSS. O(1).
pub(crate) fn version_mark(moment: Moment) -> [u8; MARK]
    ensures value { result ≡ version_mark moment }
    ensures ascii { IsAscii result }
{
    let instant = Timestamp::from_second(moment.seconds() as i64).unwrap();
    let shown = Offset::UTC.to_datetime(instant);
    let year = shown.year() as u16;
    let [y1, y2] = two_digits((year / 100) as u8);
    let [y3, y4] = two_digits((year % 100) as u8);
    let [m1, m2] = two_digits(shown.month() as u8);
    let [d1, d2] = two_digits(shown.day() as u8);
    let [h1, h2] = two_digits(shown.hour() as u8);
    let [n1, n2] = two_digits(shown.minute() as u8);
    let [s1, s2] = two_digits(shown.second() as u8);
    [
        b'~', y1, y2, y3, y4, m1, m2, d1, d2, b'-', h1, h2, n1, n2, s1, s2,
    ]
}

fn two_digits(number: u8) -> [u8; 2]
    requires { number < 100 }
    ensures { result ≡ two_digits number }
{
    [b'0' + number / 10, b'0' + number % 10]
}

/// The moment of a mark, if it is that of one. O(1).
pub(crate) fn moment_of_mark(mark: &[u8]) -> Option<Moment>
    ensures found { IfSome result (λ moment. mark.now ≡ version_mark moment) }
    ensures all { (moment : ℕ) → moment ≤ Moment.MAX_SECONDS → mark.now ≡ version_mark moment → result ≡ Some moment }
{
    if mark.len() != MARK {
        return None;
    }
    let year = i16::from(number(mark[1], mark[2])) * 100 + i16::from(number(mark[3], mark[4]));
    let moment = moment_at(
        year,
        number(mark[5], mark[6]),
        number(mark[7], mark[8]),
        number(mark[10], mark[11]),
        number(mark[12], mark[13]),
        number(mark[14], mark[15]),
    )?;
    if &version_mark(moment)[..] == mark {
        Some(moment)
    } else {
        None
    }
}

// The moment at which a clock in UTC shows this, if there is one.
fn moment_at(year: i16, month: i8, day: i8, hour: i8, minute: i8, second: i8) -> Option<Moment>
    ensures { (moment : ℕ) (shown : UtcTime) → moment ≤ Moment.MAX_SECONDS → IsUtc moment shown →
        IsShown shown year month day hour minute second → result ≡ Some moment }
{
    let Ok(shown) = DateTime::new(year, month, day, hour, minute, second, 0) else {
        return None;
    };
    let Ok(instant) = Offset::UTC.to_timestamp(shown) else {
        return None;
    };
    let Ok(seconds) = u64::try_from(instant.as_second()) else {
        return None;
    };
    Moment::new(seconds)
}

// The number of two digits; some number below 100 if they are none.
fn number(tens: u8, ones: u8) -> i8
    ensures range { (pos 0 ≤ℤ result) × (result ≤ℤ pos 99) }
    ensures value { (n : ℕ) → n < 100 → tens ≡ 48 + n / 10 → ones ≡ 48 + n % 10 → result ≡ pos n }
{
    let tens = tens.wrapping_sub(b'0') % 10;
    let ones = ones.wrapping_sub(b'0') % 10;
    (tens * 10 + ones) as i8
}
