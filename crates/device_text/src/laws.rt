//! What the definitions say, as contracts of functions that do nothing.
ghost use Rattle.std.specs.Prelude.{◌≡◌, ◌↔◌, ℕ, List, [], ◌∷◌, codes, length, Ok};
ghost use Rattle.hex.specs.Hex.{IsBytes, encode_lower};
ghost use Rattle.sync_record.specs.Devices.{Identity};
ghost use Rattle.device_text.specs.Written.{device_text};
ghost use Rattle.device_text.specs.Read.{IsDeviceText};
ghost use Rattle.device_text.specs.Found.{device_of};

/// Reading what is written gives the identity, and no other.
pub fn written_is_read()
    ensures { (identity other : Identity) → length identity ≡ 32 → IsBytes identity →
        IsDeviceText (device_text identity) other ↔ (other ≡ identity) }
{}

/// A text is read as one identity at most.
pub fn read_as_one()
    ensures { (text : List ℕ) (a b : Identity) → IsDeviceText text a → IsDeviceText text b → a ≡ b }
{}

/// A text is read as an identity exactly where `device_of` gives that identity.
pub fn value_is_what_is_read()
    ensures { (text : List ℕ) (identity : Identity) → IsDeviceText text identity ↔ (device_of text ≡ Ok identity) }
{}

/// What a real Syncthing printed for three certificates.
pub fn syncthing_prints()
    // One equation of two constants: the 32 bytes of an identity, and the text that was printed for it.
    ensures first { device_text (125 ∷ 247 ∷ 222 ∷ 113 ∷ 71 ∷ 65 ∷ 32 ∷ 174 ∷ 154 ∷ 222 ∷ 66 ∷ 219 ∷ 171 ∷ 103 ∷ 26 ∷ 228 ∷ 34 ∷ 197 ∷ 147 ∷ 161 ∷ 151 ∷ 177 ∷ 63 ∷ 91 ∷ 56 ∷ 170 ∷ 8 ∷ 39 ∷ 36 ∷ 0 ∷ 182 ∷ 244 ∷ []) ≡ codes "PX3544K-HIEQK5O-GW6ILN2-WZY24QG-RMLE5BS-6YT6WZT-YVIECOJ-AAW32AJ" }
    // The bytes and the text of the second certificate.
    ensures second { device_text (124 ∷ 176 ∷ 101 ∷ 48 ∷ 14 ∷ 230 ∷ 104 ∷ 79 ∷ 15 ∷ 22 ∷ 36 ∷ 81 ∷ 233 ∷ 41 ∷ 73 ∷ 70 ∷ 89 ∷ 117 ∷ 21 ∷ 178 ∷ 123 ∷ 10 ∷ 61 ∷ 178 ∷ 13 ∷ 2 ∷ 255 ∷ 248 ∷ 40 ∷ 169 ∷ 167 ∷ 218 ∷ []) ≡ codes "PSYGKMA-O4ZUE6B-DYWERI6-SKKJIZ2-MXKFNSP-MFD3MQK-NAL77QK-FJU7NAK" }
    // The bytes and the text of the third certificate.
    ensures third { device_text (254 ∷ 140 ∷ 228 ∷ 47 ∷ 114 ∷ 240 ∷ 246 ∷ 110 ∷ 102 ∷ 152 ∷ 62 ∷ 101 ∷ 28 ∷ 37 ∷ 237 ∷ 119 ∷ 164 ∷ 126 ∷ 199 ∷ 231 ∷ 29 ∷ 85 ∷ 48 ∷ 251 ∷ 92 ∷ 36 ∷ 77 ∷ 33 ∷ 217 ∷ 200 ∷ 0 ∷ 202 ∷ []) ≡ codes "72GOIL3-S6D3G4F-ZUYHZSR-YJPNO6K-SH5R7HD-VKTB624-4ERGSDW-OIADFAA" }
{}
