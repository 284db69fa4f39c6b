//! The 256 bits of a device ID as base32 values of five bits, and back; the base32 character of a value.
ghost use Rattle.std.specs.Prelude.{◌≡◌, ◌<◌, ◌≤◌, slice_index};
ghost use Rattle.sync_names.specs.Base32.{base32_digit};
ghost use Rattle.device_text.specs.Base32.{base32_values, identity_of, AreBase32};

/// The character of a value: `A` to `Z` for 0 to 25, and `2` to `7` for the others (RFC 4648, section 6).
pub(crate) fn base32_digit(value: u8) -> char
    requires { value < 32 }
    ensures value { result ≡ base32_digit value }
    ensures ascii { result < 128 }
{
    let code = if value < 26 {
        b'A' + value
    } else {
        b'2' + (value - 26)
    };
    code as char
}

/// An identity's 256 bits, and four zero bits behind them, by five.
pub(crate) fn base32_values(identity: &[u8; 32]) -> [u8; 52]
    ensures value { result ≡ base32_values identity.now }
    ensures small { AreBase32 result }
{
    let mut values = [0; 52];
    for place in 0..52 {
        values[place] = value_at(identity, place);
    }
    values
}

// The value at the place: five bits of two bytes.
fn value_at(identity: &[u8; 32], place: usize) -> u8
    requires { place < 52 }
    ensures { result ≡ slice_index (base32_values identity.now) place }
{
    let bit = 5 * place;
    let first = byte_at(identity, bit / 8);
    let second = byte_at(identity, bit / 8 + 1);
    let pair = u32::from(first) * 256 + u32::from(second);
    ((pair >> (11 - bit % 8)) % 32) as u8
}

// The byte at the place, and zero bits behind the last one.
fn byte_at(identity: &[u8; 32], place: usize) -> u8
    ensures { result ≡ slice_index identity.now place }
{
    if place < 32 { identity[place] } else { 0 }
}

/// The identity of which the values are the bits, by five; the last four bits are left out.
pub(crate) fn identity_of(values: &[u8; 52]) -> [u8; 32]
    requires small { AreBase32 values.now }
    ensures value { result ≡ identity_of values.now }
{
    let mut identity = [0; 32];
    for place in 0..32 {
        identity[place] = byte_of(values, place);
    }
    identity
}

// The byte at the place: eight bits of three values.
fn byte_of(values: &[u8; 52], place: usize) -> u8
    requires small { AreBase32 values.now }
    requires place { place < 32 }
    ensures { result ≡ slice_index (identity_of values.now) place }
{
    let bit = 8 * place;
    let first = values[bit / 5];
    let second = values[bit / 5 + 1];
    let third = values[bit / 5 + 2];
    let three = u32::from(first) * 1024 + u32::from(second) * 32 + u32::from(third);
    ((three >> (7 - bit % 5)) % 256) as u8
}
