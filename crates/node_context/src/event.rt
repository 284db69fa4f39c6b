//! The events of a node, and why a scan skips a name.
ghost use Rattle.std.specs.Prelude.{◌≡◌, IsTrue, ◌↔◌};
ghost use Rattle.node_context.specs.Skips.{IsToldBy, why_after};

use crate::endpoint::Endpoint;
use bep_messages::Text;
use file_dir::SkipReason;
use file_store::StoreRefusal;
use folder_calls::ScanRefusal;
use peer_reader::ReaderStop;
use std::fmt::{self, Display, Formatter};
use std::io;
use std::net::{IpAddr, SocketAddr};
use sync_names::SafeName;
use sync_pull::{PullFailure, PullRefusal};
use sync_record::DeviceId;
use sync_scan::{ScanSum, Scanned};

/// What who is connected as a peer says of itself. Nobody verified it.
#[derive(Debug, Drop)]
pub struct Heard {
    /// The name of its device.
    pub name: Text,
    /// Its program, and the version of that.
    pub program: Text,
    pub version: Text,
    /// From where it is connected, where the system says that.
    pub address: Option<SocketAddr>,
}

/// Why a folder isn't kept alike with a peer, by the peer's ClusterConfig.
#[derive(Clone, Copy, Debug, PartialEq, Eq)]
pub enum ShareGap {
    /// The peer doesn't have it.
    NotThere,
    /// The peer doesn't have it, and has one whose id differs only in which letters are capitals.
    OtherCase,
    /// The peer has it, and here it isn't shared with the peer.
    NotHere,
    /// The peer has it, and doesn't share it with this device.
    NotWithUs,
    /// The peer doesn't list itself among the folder's devices.
    WithoutPeer,
}

/// What a pull changed at a name.
#[derive(Clone, Copy, Debug, PartialEq, Eq)]
pub enum Change {
    /// Nothing was there, and its best is.
    Got,
    /// Its best is in the place of something else.
    Replaced,
    /// Something was there, and nothing is.
    Deleted,
    /// What was there is as its best, and stays.
    Same,
}

/// What happened.
#[derive(Clone, Copy)]
pub enum Event<'a> {
    /// The program began, by the configuration at this path.
    Begun(&'a str),
    /// There are no more commands, and the node ends.
    InputEnded,
    /// No commands are taken from elsewhere at the socket with this path, for this reason.
    NoSocket(&'a str, &'a str),
    /// The page at this path can't be made, for this reason.
    NoPage(&'a str, &'a str),
    /// The run ended, and the state is written.
    Ended,
    /// The state is an older one than a peer was told of, and the node begins anew.
    OlderState,
    /// The state could not be written while the node runs: which file, and why, where that is known.
    NotKept(Option<&'a str>),
    /// The state is written again.
    KeptAgain,
    /// It happened to connections of this peer.
    Peer(DeviceId, PeerEvent<'a>),
    /// It happened to the files of the folder with this id.
    Scan(&'a str, ScanEvent<'a>),
    /// It happened to what other devices have of the folder with this id.
    Pull(&'a str, PullEvent<'a>),
}

/// What happened to connections of a peer.
#[derive(Clone, Copy)]
pub enum PeerEvent<'a> {
    /// It may connect there.
    Listening(&'a Endpoint),
    /// A connection is up: the peer's Hello and its ClusterConfig came.
    Connected(&'a Heard),
    /// This folder isn't kept alike with the peer that is connected.
    Unshared(&'a str, ShareGap),
    /// The peer that is connected has so many more folders that aren't shared with it here.
    UnsharedMore(u64),
    /// A connection from this address ended, or was ended, before its ClusterConfig came. It was not taken for the peer's.
    Stranger(SocketAddr),
    /// Who is connected says that it is this device. It was not taken for the peer.
    OwnIdentity,
    /// Nobody has connected there for so many seconds.
    NobodyDialled(&'a Endpoint, u64),
    /// Two devices connect as this peer in turn: the addresses from which they do, where these tell them apart.
    InTurn(Option<(IpAddr, IpAddr)>),
    /// It could not be reached there, and is dialled again after so many seconds.
    Unreached(&'a Endpoint, io::Error, u64),
    /// A connection ended, perhaps before its ClusterConfig came.
    Gone(&'a ReaderStop),
    /// It was ended, for this reason, and another one is to begin.
    Anew(&'a str),
    /// One was ended, since no ClusterConfig came in time.
    Silent,
}

/// What happened to the files of a folder.
#[derive(Clone, Copy)]
pub enum ScanEvent<'a> {
    /// It is kept alike at this path, and so many of its files and directories are recorded.
    Keeping(&'a str, u64),
    /// A change of this name was recorded.
    Recorded(&'a SafeName),
    /// It was looked at for what changed. No line says so, but how many names were left out that were not told by name.
    Looked,
    /// A scan recorded changes, or left names out.
    Scanned(ScanSum),
    /// A scan was ended with the node.
    Ended(ScanSum),
    /// A scan of all names is at this one of so many, and has read so many bytes.
    At(u64, u64, u64),
    /// A scan of all names is over; whether it came to its end. A line is written as of a look.
    Over(bool),
    /// A scan left out this name, which was not so before.
    Skipped(&'a str, SkipWhy),
    /// The folder isn't there, at this path, or has no marker.
    Away(&'a str),
    /// It is away: another run has it.
    InUse,
    /// It is there again.
    Back,
    /// It is there, at this path, and of so many names that are recorded of it none is: it is neither scanned nor pulled.
    Held(&'a str, u64),
    /// So many versions of its files were removed, which were kept for so many days.
    Emptied(u64, u64),
}

/// What happened to what other devices have of a folder.
#[derive(Clone, Copy)]
pub enum PullEvent<'a> {
    /// An index came from this peer, whose records have sequences up to this one.
    Received(DeviceId, u64),
    /// What is at the name is now its best, by this change.
    Pulled(&'a SafeName, Change),
    /// What was at a name is kept under this one.
    Kept(&'a SafeName),
    /// So many names are needed still.
    At(u64),
    /// So many bytes of a file came from a peer.
    Came(u64),
    /// A round of pulls begins, and so many names are needed. No line says so.
    Begun(u64),
    /// A round of pulls is over, and so many names are needed. No line says so, but how many were pulled that were not told by name.
    Over(u64),
    /// The name could not be pulled, and what the system said, where that is why.
    Failed(&'a SafeName, PullFailure, Option<io::Error>),
    /// The same, for the folder refused it, or memory is out.
    Refused(&'a SafeName, PullRefusal),
    /// The same, for its best is neither a file nor a directory.
    Unsupported(&'a SafeName),
    /// The history of the folder is full, and the node begins anew.
    HistoryFull,
    /// A file could not be written, since the disk is full.
    NoRoom,
}

/// Why a scan leaves out a name, or why other devices can't have it. Displayed, it is how a line on the name ends.
#[derive(Clone, Copy, Debug, PartialEq, Eq)]
pub enum SkipWhy {
    /// It is not listed, or is too long.
    Listing(SkipReason),
    /// The size of its file changed while it was read.
    Changing,
    /// It has too many bytes, or is neither a file nor a directory.
    Unfit,
    /// The folder refuses it.
    Refused(ScanRefusal),
    /// It can't be read.
    Fault(StoreRefusal),
}

impl SkipWhy {
    /// Why a scan of a name that came to this left it out, if it did. What meets a pull settles by itself, and what stops the scan is told of that.
    pub fn of(scanned: &Result<Scanned, StoreRefusal>) -> Option<SkipWhy> {
        match scanned {
            Ok(Scanned::Answered(Ok(_))) => None,
            Ok(Scanned::Answered(Err(refusal))) => Some(SkipWhy::Refused(*refusal)),
            Ok(Scanned::Skipped) => Some(SkipWhy::Unfit),
            Ok(Scanned::Changing) => Some(SkipWhy::Changing),
            Err(refusal) => Some(SkipWhy::Fault(*refusal)),
        }
    }

    /// Why a name is left out that was for this reason, once a scan of it alone came to this. A listing says of what isn't fit what it is, and that a name is too long,
    /// which the scan of a name doesn't.
    pub fn after_scan(self, found: Option<SkipWhy>) -> Option<SkipWhy>
        ensures { result ≡ why_after self found }
    {
        match (self, found) {
            (SkipWhy::Listing(SkipReason::TooLong), None) => Some(self),
            (SkipWhy::Listing(_), Some(SkipWhy::Unfit)) => Some(self),
            _ => found,
        }
    }

    /// Whether nothing new is told by this reason where another one was told: it is the same, or says what it is that wasn't fit.
    pub fn is_told_by(self, told: SkipWhy) -> bool
        ensures { IsTrue result ↔ IsToldBy self told }
    {
        self == told || (told == SkipWhy::Unfit && matches!(self, SkipWhy::Listing(_)))
    }
}

impl Display for SkipWhy {
    fn fmt<W: fmt::Write>(&self, f: &mut Formatter<W>) -> fmt::Result {
        match self {
            SkipWhy::Listing(reason) => write!(f, "{reason}"),
            SkipWhy::Changing => f.write_str("it changed while it was read"),
            SkipWhy::Unfit => f.write_str("it is too large, or neither a file nor a directory"),
            SkipWhy::Refused(refusal) => write!(f, "{} {refusal}", refusal.number()),
            SkipWhy::Fault(refusal) => write!(f, "{} {refusal}", refusal.number()),
        }
    }
}
