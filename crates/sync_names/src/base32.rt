//! The first seven base32 characters of a number, by which a conflict copy's name says which device made the change.
ghost use Rattle.std.specs.Prelude.{◌≡◌, ◌<◌, ◌++◌, ◌*◌, ◌-◌, OnOk, string_bytes};
ghost use Rattle.sync_names.specs.Base32.{base32_digit, base32_character, short_base32};

use std::alloc::AllocError;

/// Appends the first seven characters of the number's base32 text (RFC 4648, section 6).
pub(crate) fn push_short_base32(text: &mut String, number: u64) -> Result<(), AllocError>
    ensures { OnOk result (string_bytes text.new ≡ string_bytes text.old ++ short_base32 number) }
{
    for place in 0..7u32 {
        text.push(base32_character(number, place))?;
    }
    Ok(())
}

fn base32_character(number: u64, place: u32) -> char
    requires { place < 7 }
    ensures value { result ≡ base32_character number place }
    ensures ascii { result < 128 }
{
    base32_digit((number >> (59 - 5 * place) & 31) as u8)
}

fn base32_digit(value: u8) -> char
    requires { value < 32 }
    ensures value { result ≡ base32_digit value }
    ensures ascii { result < 128 }
{
    let code = if value < 26 {
        b'A' + value
    } else {
        b'2' + (value - 26)
    };
    code as char
}
