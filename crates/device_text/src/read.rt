//! A device ID parsed from text: 64 hexadecimal digits, or Syncthing's base32 with check characters and dashes.
ghost use Rattle.std.specs.Prelude.{◌≡◌, ◌≢◌, ℕ, ◌<◌, ◌↔◌, length, map, slice_index, IfOk, IfErr, MatchOption};
ghost use Rattle.sync_names.specs.Base32.{base32_digit};
ghost use Rattle.sync_record.specs.Devices.{Identity};
ghost use Rattle.device_text.specs.Base32.{AreBase32};
ghost use Rattle.device_text.specs.Read.{IsDeviceText, IsHexText, IsSyncthingText, HasFault, IsValueOf, is_separator, characters, as_read, IsChecked, without_checks};
ghost use Rattle.device_text.specs.Found.{device_of};

use crate::DeviceFault;
use crate::base32::identity_of;
use crate::check::check_value;
use sync_record::DeviceId;

/// The device of a text: 64 hexadecimal digits in either case, or the form in which Syncthing shows it (`device_text`), read as Syncthing does:
/// dashes and blanks may stand anywhere or nowhere, small letters are capitals, and 0, 1 and 8 are the letters O, I and B. The last four bits of
/// its 52 characters are not looked at. Fails with the first fault of `Length`, `Character` and `Check` that it has. O(n), allocates nothing.
pub fn read_device(text: &str) -> Result<DeviceId, DeviceFault>
    ensures value { IfOk result (λ device. IsDeviceText text.now device) }
    ensures fault { IfErr result (λ fault. HasFault text.now fault) }
    ensures no_device { IfErr result (λ fault. (device : Identity) → IsDeviceText text.now device → ⊥) }
    ensures found { result ≡ device_of text.now }
{
    match DeviceId::from_hex(text) {
        Some(device) => Ok(device),
        None => read_syncthing(text),
    }
}

fn read_syncthing(text: &str) -> Result<DeviceId, DeviceFault>
    ensures value { IfOk result (λ device. IsSyncthingText text.now device) }
    ensures fault { IfErr result (λ fault. HasFault text.now fault) }
{
    let Some(characters) = read_characters(text) else {
        return Err(DeviceFault::Length);
    };
    let Some(values) = read_values(&characters) else {
        return Err(DeviceFault::Character);
    };
    match first_unchecked(&values) {
        Some(n) => Err(DeviceFault::Check { group: n + 1 }),
        None => Ok(DeviceId::new(identity_of(&without_checks(&values)))),
    }
}

// The characters beside dashes and blanks, if they are 56.
fn read_characters(text: &str) -> Option<[u8; 56]>
    ensures { MatchOption result (length (characters text.now) ≢ 56) (λ found. found ≡ characters text.now) }
{
    let mut found = [0; 56];
    let mut count: usize = 0;
    for c in text.as_bytes() {
        if is_separator(*c) {
            continue;
        }
        if count == 56 {
            return None;
        }
        found[count] = *c;
        count += 1;
    }
    if count == 56 { Some(found) } else { None }
}

fn is_separator(c: u8) -> bool
    ensures { result ≡ is_separator c }
{
    c == b'-' || c == b' '
}

// The values for which the characters stand, if each stands for one.
fn read_values(characters: &[u8; 56]) -> Option<[u8; 56]>
    ensures { MatchOption result
        ((k : ℕ) × (k < 56) × ((value : ℕ) → IsValueOf (slice_index characters.now k) value → ⊥))
        (λ values. AreBase32 values × (map as_read characters.now ≡ map base32_digit values)) }
{
    let mut values = [0; 56];
    for place in 0..56 {
        let value = value_of(characters[place])?;
        values[place] = value;
    }
    Some(values)
}

// The value for which the character stands.
fn value_of(c: u8) -> Option<u8>
    ensures { MatchOption result ((value : ℕ) → IsValueOf c value → ⊥) (λ value. IsValueOf c value) }
{
    match c.to_ascii_uppercase() {
        b'0' => Some(14),
        b'1' => Some(8),
        b'8' => Some(1),
        letter @ b'A'..=b'Z' => Some(letter - b'A'),
        digit @ b'2'..=b'7' => Some(digit - b'2' + 26),
        _ => None,
    }
}

// The first group of 14, counted from 0, that does not end in its check character.
fn first_unchecked(values: &[u8; 56]) -> Option<u8>
    requires small { AreBase32 values.now }
    ensures { MatchOption result ((n : ℕ) → n < 4 → IsChecked values.now n)
        (λ n. (n < 4) × ((m : ℕ) → m < n → IsChecked values.now m) × (IsChecked values.now n → ⊥)) }
{
    for n in 0..4 {
        let start = 14 * n;
        if values[start + 13] != check_value(&values[start..][..13]) {
            return Some(n as u8);
        }
    }
    None
}

// The values without the last of each group of 14.
fn without_checks(values: &[u8; 56]) -> [u8; 52]
    requires small { AreBase32 values.now }
    ensures value { result ≡ without_checks values.now }
    ensures small { AreBase32 result }
{
    let mut others = [0; 52];
    for place in 0..52 {
        others[place] = values[place + place / 13];
    }
    others
}
