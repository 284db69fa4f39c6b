//! Why a peer is not asked.
ghost use Rattle.std.specs.Prelude.{◌≡◌};
ghost use Rattle.peer_asks.specs.Given.{is_out_of_memory};

use std::alloc::AllocError;
use thiserror::Error;

/// Why a peer is not asked.
#[derive(Clone, Copy, Debug, PartialEq, Eq, Error)]
pub enum AskFault {
    /// There is no connection with the peer, or it is ending.
    #[error("NotConnected")]
    NotConnected,
    /// As many Requests as may, [`MAX_ASKS`](bep_session::MAX_ASKS) at most, wait for their Response.
    #[error("TooManyAsks")]
    TooManyAsks,
    /// It was silent three times running, while Requests waited, and is left alone for five minutes.
    #[error("Silent")]
    Silent,
    /// The block ends at 2^63 or later, or has 2^31 bytes or more, so no Request can name it.
    #[error("TooLarge")]
    TooLarge,
    /// Memory is out.
    #[error("OutOfMemory")]
    OutOfMemory,
}

impl AskFault {
    /// Whether memory is out.
    pub(crate) fn is_out_of_memory(self) -> bool
        ensures { result ≡ is_out_of_memory self }
    {
        match self {
            AskFault::OutOfMemory => true,
            AskFault::NotConnected
            | AskFault::TooManyAsks
            | AskFault::Silent
            | AskFault::TooLarge => false,
        }
    }
}

impl From<AllocError> for AskFault {
    ghost use Rattle.std.specs.Prelude.{◌≡◌};
    ghost use Rattle.peer_asks.specs.declared.fault.AskFault.TheVariants.{OutOfMemory};

    ghost from_gives = { λ error fault. fault ≡ OutOfMemory };

    fn from(_error: AllocError) -> AskFault {
        AskFault::OutOfMemory
    }
}
