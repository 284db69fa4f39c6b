//! Device IDs: 32 bytes, their hexadecimal text, and the short id that version vectors count by.
ghost use Rattle.std.specs.Prelude.{◌≡◌, ◌↔◌, ℕ, IfOk, IfSome, IsSome, Ok, Some, length, refl, bytes_eq, string_bytes};
ghost use Rattle.std.specs.List.{AllPass};
ghost use Rattle.hex.specs.Hex.{decode_of, encode_lower, is_hex_digit};
ghost use Rattle.std.specs.Cmp.{partial_equiv_from_equiv};
ghost use Rattle.std.specs.Cmp.Lexicographic.{nat_list_eq_equiv, nat_list_cmp_total, texts_ties, texts_po};
ghost use Rattle.sync_record.specs.Devices.{short_id, bytes_cmp};

use hex::FromHex;
use std::alloc::{AllocError, Global};
use std::cmp::Ordering;
use std::marker::Model;

/// The identity of a device: 32 bytes (Block Exchange Protocol v1, "Device ID"). Contracts see the bytes.
#[derive(Clone, Copy, Debug)]
pub struct DeviceId {
    bytes: [u8; 32],
}

impl Model for DeviceId {
    ghost use Rattle.std.specs.Prelude.{ℕ, List};

    ghost Value = { List ℕ };

    ghost view = { λ device. device.bytes };

    ghost inverse = { λ bytes. record { bytes = bytes } };
}

impl DeviceId {
    /// The device with these bytes.
    pub const fn new(bytes: [u8; 32]) -> DeviceId
        ensures { result ≡ bytes }
    {
        DeviceId { bytes }
    }

    /// Its 32 bytes.
    pub const fn bytes(&self) -> &[u8; 32]
        ensures { result.now ≡ self.now }
    {
        &self.bytes
    }

    /// The device of a text of 64 hexadecimal digits in either case; `None` for any other text. O(1).
    pub fn from_hex(text: &str) -> Option<DeviceId>
        ensures value { IfSome result (λ device. decode_of text.now ≡ Ok device) }
        ensures found { IsSome result ↔ ((length text.now ≡ 64) × AllPass is_hex_digit text.now) }
    {
        let bytes = read_hex(text)?;
        Some(DeviceId { bytes })
    }

    /// Its 64 hexadecimal digits in lower case. Returns `Err` if they could not be allocated. O(1).
    pub fn to_hex(&self, alloc: Global) -> Result<String, AllocError>
        ensures { IfOk result (λ text. string_bytes text ≡ encode_lower self.now) }
    {
        hex::encode(alloc, self.bytes)
    }

    /// Its first eight bytes as a big-endian number, under which version vectors count its changes.
    pub fn short_id(&self) -> u64
        ensures { result ≡ short_id self.now }
    {
        let [a, b, c, d, e, f, g, h, ..] = self.bytes;
        u64::from_be_bytes([a, b, c, d, e, f, g, h])
    }
}

// The bytes of 64 hexadecimal digits.
fn read_hex(text: &str) -> Option<[u8; 32]>
    ensures value { IfSome result (λ bytes. decode_of text.now ≡ Ok bytes) }
    ensures found { IsSome result ↔ ((length text.now ≡ 64) × AllPass is_hex_digit text.now) }
{
    <[u8; 32] as FromHex>::from_hex(text).ok()
}

impl PartialEq for DeviceId {
    ghost eq = { bytes_eq };

    ghost laws = { partial_equiv_from_equiv nat_list_eq_equiv };

    fn eq(&self, other: &DeviceId) -> bool {
        self.bytes == other.bytes
    }
}

impl Eq for DeviceId {
    ghost laws = { nat_list_eq_equiv };
}

impl PartialOrd for DeviceId {
    ghost partial_cmp = { λ a b. Some (bytes_cmp a b) };

    ghost laws = { texts_po };

    fn partial_cmp(&self, other: &DeviceId) -> Option<Ordering> {
        Some(self.cmp(other))
    }
}

impl Ord for DeviceId {
    ghost cmp = { bytes_cmp };

    ghost total = { nat_list_cmp_total };

    ghost matches_partial_cmp = { λ a b. refl };

    ghost matches_eq = { texts_ties };

    fn cmp(&self, other: &DeviceId) -> Ordering {
        self.bytes.cmp(&other.bytes)
    }
}
