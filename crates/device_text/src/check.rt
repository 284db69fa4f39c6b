//! The check character of a device ID's text: Luhn's algorithm mod 32, as Syncthing computes it.
ghost use Rattle.std.specs.Prelude.{◌≡◌, ◌<◌, ◌≤◌, length};
ghost use Rattle.device_text.specs.Base32.{AreBase32};
ghost use Rattle.device_text.specs.Checks.{check_value};

/// The value of the check character of 13 values: Luhn's algorithm mod 32 with Syncthing's factors, 1 for the first, then 2 and 1 in turn.
pub(crate) fn check_value(values: &[u8]) -> u8
    requires few { length values.now ≤ 13 }
    requires small { AreBase32 values.now }
    ensures value { result ≡ check_value values.now }
    ensures small { result < 32 }
{
    let mut sum: u32 = 0;
    let mut factor: u32 = 1;
    for value in values {
        let product = factor * u32::from(*value);
        sum += product / 32 + product % 32;
        factor = 3 - factor;
    }
    ((32 - sum % 32) % 32) as u8
}
