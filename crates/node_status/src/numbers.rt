//! Numbers as a person reads them.
ghost use Rattle.std.specs.Prelude.{◌≡◌, ◌++◌, ◌+◌, ◌<◌, ◌≤◌, [], ◌∷◌, OnOk, string_bytes};
ghost use Rattle.node_status.specs.Numbers.{bytes_text, count_text, grouped, number_text, part_text, percent, progress_text, tenths_text, three_digits};

use crate::status::Progress;
use itoa::Buffer;
use std::alloc::AllocError;

/// Appends a number, as `1,234,567`.
pub(crate) fn push_number(text: &mut String, number: u64) -> Result<(), AllocError>
    ensures { OnOk result (string_bytes text.new ≡ string_bytes text.old ++ number_text number) }
{
    push_groups(text, 6, number)
}

// The same, with so many commas at most.
fn push_groups(text: &mut String, commas: u8, number: u64) -> Result<(), AllocError>
    ensures { OnOk result (string_bytes text.new ≡ string_bytes text.old ++ grouped commas number) }
{
    if commas == 0 || number < 1000 {
        let mut digits = Buffer::new();
        return text.push_str(digits.format(number));
    }
    push_groups(text, commas - 1, number / 1000)?;
    text.push_str(",")?;
    push_three_digits(text, (number % 1000) as u16)
}

fn push_three_digits(text: &mut String, number: u16) -> Result<(), AllocError>
    requires { number < 1000 }
    ensures { OnOk result (string_bytes text.new ≡ string_bytes text.old ++ three_digits number) }
{
    push_digit(text, (number / 100) as u8)?;
    push_digit(text, (number / 10 % 10) as u8)?;
    push_digit(text, (number % 10) as u8)
}

/// Appends a digit.
pub(crate) fn push_digit(text: &mut String, digit: u8) -> Result<(), AllocError>
    requires { digit < 10 }
    ensures { OnOk result (string_bytes text.new ≡ string_bytes text.old ++ ((48 + digit) ∷ [])) }
{
    text.push((b'0' + digit) as char)
}

/// Appends a number of things, as `1 file`, by the word for one and the word for more.
pub(crate) fn push_count(
    text: &mut String,
    number: u64,
    one: &str,
    many: &str,
) -> Result<(), AllocError>
    ensures { OnOk result (string_bytes text.new ≡ string_bytes text.old ++ count_text number one.now many.now) }
{
    push_number(text, number)?;
    text.push_str(" ")?;
    text.push_str(if number == 1 { one } else { many })
}

/// Appends how far something is, as `120 of 2,000`.
pub(crate) fn push_part(text: &mut String, progress: Progress) -> Result<(), AllocError>
    ensures { OnOk result (string_bytes text.new ≡ string_bytes text.old ++ part_text progress) }
{
    push_number(text, progress.at)?;
    text.push_str(" of ")?;
    push_number(text, progress.of)
}

/// Appends how far something is, as `120 of 2,000 (6 %)`.
pub(crate) fn push_progress(text: &mut String, progress: Progress) -> Result<(), AllocError>
    ensures { OnOk result (string_bytes text.new ≡ string_bytes text.old ++ progress_text progress) }
{
    push_part(text, progress)?;
    text.push_str(" (")?;
    push_number(text, percent(progress))?;
    text.push_str(" %)")
}

/// Appends a number of bytes, as `12.3 MB`.
pub(crate) fn push_bytes(text: &mut String, bytes: u64) -> Result<(), AllocError>
    ensures { OnOk result (string_bytes text.new ≡ string_bytes text.old ++ bytes_text bytes) }
{
    if bytes < 1000 {
        push_number(text, bytes)?;
        text.push_str(" B")
    } else if bytes < 1_000_000 {
        push_tenths(text, bytes / 100, " kB")
    } else if bytes < 1_000_000_000 {
        push_tenths(text, bytes / 100_000, " MB")
    } else {
        push_tenths(text, bytes / 100_000_000, " GB")
    }
}

// Appends a number of tenths, and of what.
fn push_tenths(text: &mut String, tenths: u64, unit: &str) -> Result<(), AllocError>
    ensures { OnOk result (string_bytes text.new ≡ string_bytes text.old ++ (tenths_text tenths ++ unit.now)) }
{
    push_number(text, tenths / 10)?;
    text.push_str(".")?;
    push_digit(text, (tenths % 10) as u8)?;
    text.push_str(unit)
}

/// Whole per cent, 100 at most.
pub(crate) fn percent(progress: Progress) -> u64
    ensures value { result ≡ percent progress }
    ensures most { result ≤ 100 }
{
    if progress.of == 0 {
        return 100;
    }
    let whole = u128::from(progress.at) * 100 / u128::from(progress.of);
    whole.min(100) as u64
}
