//! A device ID written in Syncthing's form: base32, with check characters, and dashes between groups of seven.
ghost use Rattle.std.specs.Prelude.{◌≡◌, ◌++◌, ◌<◌, length, map, IfOk, OnOk, string_bytes};
ghost use Rattle.sync_names.specs.Base32.{base32_digit};
ghost use Rattle.device_text.specs.Base32.{AreBase32};
ghost use Rattle.device_text.specs.Written.{group_text, device_text};

use crate::base32::{base32_digit, base32_values};
use crate::check::check_value;
use std::alloc::{AllocError, Global};
use sync_record::DeviceId;

/// The identity as Syncthing shows it: 52 characters of base32 (RFC 4648, section 6), a check character behind each 13, and dashes between
/// groups of seven; 63 bytes. Returns `Err` if they could not be allocated. O(1).
pub fn device_text(alloc: Global, device: &DeviceId) -> Result<String, AllocError>
    ensures { IfOk result (λ text. string_bytes text ≡ device_text device.now) }
{
    let values = base32_values(device.bytes());
    let mut text = String::new(alloc);
    push_group(&mut text, &values[..13])?;
    text.push('-')?;
    push_group(&mut text, &values[13..26])?;
    text.push('-')?;
    push_group(&mut text, &values[26..39])?;
    text.push('-')?;
    push_group(&mut text, &values[39..52])?;
    Ok(text)
}

// Appends 13 values, and their check character, with a dash in the middle.
fn push_group(text: &mut String, values: &[u8]) -> Result<(), AllocError>
    requires count { length values.now ≡ 13 }
    requires small { AreBase32 values.now }
    ensures { OnOk result (string_bytes text.new ≡ string_bytes text.old ++ group_text values.now) }
{
    push_values(text, &values[..7])?;
    text.push('-')?;
    push_values(text, &values[7..])?;
    text.push(base32_digit(check_value(values)))
}

// Appends the characters of the values.
fn push_values(text: &mut String, values: &[u8]) -> Result<(), AllocError>
    requires small { AreBase32 values.now }
    ensures { OnOk result (string_bytes text.new ≡ string_bytes text.old ++ map base32_digit values.now) }
{
    for value in values {
        text.push(base32_digit(*value))?;
    }
    Ok(())
}
