//! How long a message and a Hello may be in a frame, and the big-endian numbers of length prefixes.
ghost use Rattle.std.specs.Prelude.{◌≡◌, length};
ghost use Rattle.bep_frames.specs.Grammar.{number16, number32};

/// The most bytes of a message after a Hello.
pub const MAX_MESSAGE_BYTES: usize = 500_000_000;

/// The most bytes of a Hello, and of a header.
pub const MAX_HELLO_BYTES: usize = 65_535;

/// The number that two bytes are, big-endian.
pub fn number16(size: &[u8]) -> usize
    requires { length size.now ≡ 2 }
    ensures { result ≡ number16 size.now }
{
    u16::from_be_bytes([size[0], size[1]]) as usize
}

/// The number that four bytes are, big-endian.
pub fn number32(size: &[u8]) -> usize
    requires { length size.now ≡ 4 }
    ensures { result ≡ number32 size.now }
{
    u32::from_be_bytes([size[0], size[1], size[2], size[3]]) as usize
}
