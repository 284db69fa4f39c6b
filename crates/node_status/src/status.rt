//! What a node is doing, as one value.
use serde::Serialize;

/// What a node is doing, at one moment.
#[derive(Debug, Drop, Serialize)]
pub struct Status {
    /// The version of the program.
    pub version: String,
    /// The name of this device.
    pub name: String,
    /// Its identity, in 64 hexadecimal digits.
    pub device: String,
    /// When this was said, in seconds since 1970 (UTC).
    pub made: u64,
    /// How many bytes of memory the program holds, where the system says that.
    pub memory: Option<u64>,
    /// Why the state can't be written, if it can't: until it can be, nothing is put in place, and peers are told nothing.
    pub not_written: Option<String>,
    /// Its folders, as the configuration has them.
    pub folders: Vec<FolderStatus>,
    /// Its peers, as the configuration has them.
    pub peers: Vec<PeerStatus>,
}

/// What a folder is in.
#[derive(Clone, Copy, Debug, PartialEq, Eq, Serialize)]
pub enum FolderState {
    /// Each name is as the best known version of it.
    UpToDate,
    /// Names are needed, and none is being pulled.
    Behind,
    /// Names are needed that could not be pulled; they are tried again.
    Failing,
    /// All names are scanned.
    Scanning,
    /// Needed names are pulled.
    Pulling,
    /// Names are needed, and the disk is full.
    NoRoom,
    /// The directory isn't there, or has no marker.
    Away,
    /// Another run has it.
    InUse,
    /// The directory is there, and none of the names that are recorded: it waits for the command `scan`.
    Held,
}

/// How far something is.
#[derive(Clone, Copy, Debug, PartialEq, Eq, Serialize)]
pub struct Progress {
    /// So many names are done.
    pub at: u64,
    /// Of so many.
    pub of: u64,
}

/// What a folder is doing.
#[derive(Debug, Drop, Serialize)]
pub struct FolderStatus {
    /// Its id.
    pub id: String,
    /// Where it is on the disk.
    pub path: String,
    /// What it is in.
    pub state: FolderState,
    /// How far the scan or the pull is, where one goes on and says it.
    pub progress: Option<Progress>,
    /// How many files are recorded here.
    pub files: u64,
    /// How many directories are.
    pub directories: u64,
    /// How many names are needed.
    pub needed: u64,
    /// How many bytes peers have given for its names since nothing was needed.
    pub received: u64,
    /// How many of these came in a second, on average.
    pub rate: u64,
    /// When the last scan of all names ended, in seconds since 1970, if one did in this run.
    pub scanned: Option<u64>,
    /// When it was last looked at for what changed, in seconds since 1970, if it was in this run.
    pub looked: Option<u64>,
    /// How many entries its history has, and how many it takes.
    pub history: Progress,
    /// The last conflict copies that this run made, the newest first, ten at most.
    pub conflicts: Vec<Noted>,
    /// Names that could not be pulled, and why; they are tried again.
    pub failed: Vec<Noted>,
    /// How many more there are.
    pub failed_more: u64,
    /// Names that the last scan of all left out, and why.
    pub left_out: Vec<Noted>,
    /// How many more there are.
    pub left_out_more: u64,
}

/// A name, and what there is to say of it.
#[derive(Debug, Drop, Serialize)]
pub struct Noted {
    /// The name.
    pub name: String,
    /// When it was so, in seconds since 1970, where that is known.
    pub when: Option<u64>,
    /// Why, or nothing where the name says all.
    pub why: String,
}

/// What there is of a peer.
#[derive(Debug, Drop, Serialize)]
pub struct PeerStatus {
    /// Its identity, in 64 hexadecimal digits.
    pub device: String,
    /// Whether it is connected.
    pub is_up: bool,
    /// Since when that is so, in seconds since 1970, if it changed in this run.
    pub since: Option<u64>,
    /// The name that it gave itself last, in this run.
    pub name: Option<String>,
    /// Its program and the version of that, as it said last.
    pub program: Option<String>,
    /// From where it is connected, or was last.
    pub from: Option<String>,
    /// Why it isn't connected, where that is known.
    pub why: Option<String>,
}
