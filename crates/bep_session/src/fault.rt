//! Why a peer's stream breaks the protocol, and why no further Request can be asked now.
ghost use Rattle.std.specs.Prelude.{◌≡◌, Some};
ghost use Rattle.bep_session.specs.Faults.{ask_refusal_name, ask_refusal_number, session_fault, session_fault_name, session_fault_number};

use bep_frames::FrameFault;
use std::fmt::{self, Display, Formatter};
use thiserror::Error;

/// Why a stream breaks the protocol. Displayed, it is its name.
#[derive(Clone, Copy, Debug, PartialEq, Eq, Error)]
pub enum SessionFault {
    /// The stream doesn't begin with the four bytes of a Hello.
    BadMagic,
    /// A message has more than [`MAX_MESSAGE_BYTES`](bep_frames::MAX_MESSAGE_BYTES).
    TooLong,
    /// A header says that its message is compressed.
    Compressed,
    /// A whole header can't be read.
    BadHeader,
    /// A whole Hello, or a whole message of a known type, can't be read.
    BadBody,
    /// The first message of a known type after the Hello is neither a ClusterConfig nor a Close.
    NotClusterConfigFirst,
}

impl SessionFault {
    /// The fault of a stream of which a reader returns this one; `None` if the reader was out of memory, which is no fault of the stream.
    pub(crate) fn of_stream(fault: FrameFault) -> Option<SessionFault>
        ensures { result ≡ session_fault fault }
    {
        match fault {
            FrameFault::BadMagic => Some(SessionFault::BadMagic),
            FrameFault::TooLong => Some(SessionFault::TooLong),
            FrameFault::Compressed => Some(SessionFault::Compressed),
            FrameFault::BadHeader => Some(SessionFault::BadHeader),
            FrameFault::BadBody => Some(SessionFault::BadBody),
            FrameFault::OutOfMemory => None,
        }
    }

    /// The number under which programs report the fault: 10 to 14, or 50.
    pub fn number(self) -> u8
        ensures { result ≡ session_fault_number self }
    {
        match self {
            SessionFault::BadMagic => 10,
            SessionFault::TooLong => 11,
            SessionFault::Compressed => 12,
            SessionFault::BadHeader => 13,
            SessionFault::BadBody => 14,
            SessionFault::NotClusterConfigFirst => 50,
        }
    }
}

impl Display for SessionFault {
    ghost output = { λ fault. Some (session_fault_name fault) };

    fn fmt<W: fmt::Write>(&self, f: &mut Formatter<W>) -> fmt::Result {
        f.write_str(match self {
            SessionFault::BadMagic => "BadMagic",
            SessionFault::TooLong => "TooLong",
            SessionFault::Compressed => "Compressed",
            SessionFault::BadHeader => "BadHeader",
            SessionFault::BadBody => "BadBody",
            SessionFault::NotClusterConfigFirst => "NotClusterConfigFirst",
        })
    }
}

/// Why no id was opened. Displayed, it is its name.
#[derive(Clone, Copy, Debug, PartialEq, Eq, Error)]
pub enum AskRefusal {
    /// [`MAX_ASKS`](crate::MAX_ASKS) ids are open.
    TooManyAsks,
}

impl AskRefusal {
    /// The number under which programs report the refusal: 53.
    pub fn number(self) -> u8
        ensures { result ≡ ask_refusal_number self }
    {
        match self {
            AskRefusal::TooManyAsks => 53,
        }
    }
}

impl Display for AskRefusal {
    ghost output = { λ refusal. Some (ask_refusal_name refusal) };

    fn fmt<W: fmt::Write>(&self, f: &mut Formatter<W>) -> fmt::Result {
        f.write_str(match self {
            AskRefusal::TooManyAsks => "TooManyAsks",
        })
    }
}
