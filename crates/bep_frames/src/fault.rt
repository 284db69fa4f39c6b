//! Why a frame is not read (bad magic, too long, compressed, a header or body that can't be decoded), or not written.
ghost use Rattle.std.specs.Prelude.{◌≡◌, Some};
ghost use Rattle.bep_frames.specs.Faults.{frame_fault_name, frame_fault_number, write_fault_name, write_fault_number};
ghost use Rattle.bep_frames.specs.declared.fault.WriteFault.TheVariants.{OutOfMemory};

use std::alloc::AllocError;
use std::fmt::{self, Display, Formatter};
use thiserror::Error;

/// Why no frame is read. Displayed, it is its name.
#[derive(Clone, Copy, Debug, PartialEq, Eq, Error)]
pub enum FrameFault {
    /// A Hello is due, and the first four bytes aren't `0x2EA7D90B`.
    BadMagic,
    /// A message has more than [`MAX_MESSAGE_BYTES`](crate::MAX_MESSAGE_BYTES).
    TooLong,
    /// A header says that its message is compressed.
    Compressed,
    /// A whole header can't be read.
    BadHeader,
    /// A whole message of a known type can't be read.
    BadBody,
    /// Allocation failed.
    OutOfMemory,
}

impl FrameFault {
    /// The number under which programs report the fault: 10 to 14, or 33 for out of memory.
    pub fn number(self) -> u8
        ensures { result ≡ frame_fault_number self }
    {
        match self {
            FrameFault::BadMagic => 10,
            FrameFault::TooLong => 11,
            FrameFault::Compressed => 12,
            FrameFault::BadHeader => 13,
            FrameFault::BadBody => 14,
            FrameFault::OutOfMemory => 33,
        }
    }
}

impl Display for FrameFault {
    ghost output = { λ fault. Some (frame_fault_name fault) };

    fn fmt<W: fmt::Write>(&self, f: &mut Formatter<W>) -> fmt::Result {
        f.write_str(match self {
            FrameFault::BadMagic => "BadMagic",
            FrameFault::TooLong => "TooLong",
            FrameFault::Compressed => "Compressed",
            FrameFault::BadHeader => "BadHeader",
            FrameFault::BadBody => "BadBody",
            FrameFault::OutOfMemory => "OutOfMemory",
        })
    }
}

/// Why no frame is written. Displayed, it is its name.
#[derive(Clone, Copy, Debug, PartialEq, Eq, Error)]
pub enum WriteFault {
    /// The written form has more than [`MAX_HELLO_BYTES`](crate::MAX_HELLO_BYTES) (a Hello) or
    /// [`MAX_MESSAGE_BYTES`](crate::MAX_MESSAGE_BYTES) (any other message).
    TooLong,
    /// Allocation failed.
    OutOfMemory,
}

impl WriteFault {
    /// The number under which programs report the fault: 11, or 33 for out of memory.
    pub fn number(self) -> u8
        ensures { result ≡ write_fault_number self }
    {
        match self {
            WriteFault::TooLong => 11,
            WriteFault::OutOfMemory => 33,
        }
    }
}

impl Display for WriteFault {
    ghost output = { λ fault. Some (write_fault_name fault) };

    fn fmt<W: fmt::Write>(&self, f: &mut Formatter<W>) -> fmt::Result {
        f.write_str(match self {
            WriteFault::TooLong => "TooLong",
            WriteFault::OutOfMemory => "OutOfMemory",
        })
    }
}

impl From<AllocError> for WriteFault {
    ghost from_gives = { λ _ e. e ≡ OutOfMemory };

    fn from(_error: AllocError) -> WriteFault {
        WriteFault::OutOfMemory
    }
}
