//! Why the reader of a connection ended: the end of the stream, an error, a Close, a protocol fault, a timeout, ..
use bep_messages::Text;
use bep_session::SessionFault;
use std::alloc::AllocError;
use std::io::ErrorKind;

/// Why a reader ended.
#[derive(Debug, Drop)]
pub enum ReaderStop {
    /// The input ended.
    InputEnded,
    /// A read failed.
    Read(ErrorKind),
    /// The peer closed the connection, for this reason.
    Closed(Text),
    /// The stream breaks the protocol.
    Fault(SessionFault),
    /// No whole message was received for 300 seconds.
    TimedOut,
    /// A folder refused a change, since its history has no room.
    HistoryFull,
    /// Memory is out.
    OutOfMemory,
}

impl From<AllocError> for ReaderStop {
    ghost use Rattle.std.specs.Prelude.{◌≡◌};
    ghost use Rattle.peer_reader.specs.declared.stop.ReaderStop.TheVariants.{OutOfMemory};

    ghost from_gives = { λ error stop. stop ≡ OutOfMemory };

    fn from(_error: AllocError) -> ReaderStop {
        ReaderStop::OutOfMemory
    }
}
