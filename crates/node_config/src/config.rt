//! A node's configuration as a value: its device, its state file, and each folder and peer with its settings.
ghost use Rattle.std.specs.Prelude.{◌≡◌};
ghost use Rattle.node_config.specs.FolderNumbers.{number_in};
ghost use Rattle.node_config.specs.Rules.{IsFolder};

use crate::folder_numbers::FolderNumber;
use bep_messages::{Items, Text};
use sync_record::DeviceId;

/// What a node does: who it is, the folders it keeps and its peers.
#[derive(Debug, Drop)]
pub struct Config {
    /// The identity of this device.
    pub device: DeviceId,
    /// The name of this device, which peers see.
    pub name: Text,
    /// The path of the state file.
    pub state: Text,
    /// The path of the page that says how all is, if one is kept.
    pub status: Option<Text>,
    /// The folders, in the order of the document.
    pub folders: Items<FolderConfig>,
    /// The peers, in the order of the document.
    pub peers: Items<PeerConfig>,
}

/// A folder that a node keeps.
#[derive(Debug, Drop)]
pub struct FolderConfig {
    /// Its id, by which peers speak of it.
    pub id: Text,
    /// The path of its files.
    pub path: Text,
    /// The most changes that its history keeps.
    pub history_limit: u64,
    /// The most conflict copies that are kept of a name, or -1 for any number.
    pub max_conflicts: i32,
    /// How many seconds lie between two scans that read everything, or 0 for no such scans.
    pub rescan: u64,
    /// How many seconds lie between two looks at what changed, 0 for none, or -1 for as often as costs little.
    pub look: i32,
    /// How many days what a peer's record replaces or deletes is kept in the folder's `.stversions`, or 0 for not at all.
    pub trash_days: u64,
    /// The permission bits of files that are made anew, as `0o640`, or `None` for what the system gives.
    pub mode: Option<u32>,
}

impl FolderConfig {
    /// One of its numbers. O(1).
    pub fn number(&self, number: FolderNumber) -> i64
        ensures { IsFolder self.now → result ≡ number_in number self.now }
    {
        match number {
            FolderNumber::HistoryLimit => i64::try_from(self.history_limit).unwrap_or(i64::MAX),
            FolderNumber::MaxConflicts => i64::from(self.max_conflicts),
            FolderNumber::Rescan => i64::try_from(self.rescan).unwrap_or(i64::MAX),
            FolderNumber::Look => i64::from(self.look),
            FolderNumber::TrashDays => i64::try_from(self.trash_days).unwrap_or(i64::MAX),
        }
    }
}

/// Another device, with which a node keeps folders alike.
#[derive(Debug, Drop)]
pub struct PeerConfig {
    /// Its identity.
    pub device: DeviceId,
    /// The folders that are shared with it, as places in [`Config::folders`], in the order of the document. A folder that is listed
    /// twice stands here twice.
    pub folders: Items<usize>,
    /// How the two devices connect.
    pub address: PeerAddress,
}

/// How a node and a peer connect. The text is as in the document: [`crate::read_address`] reads it.
#[derive(Debug, Drop)]
pub enum PeerAddress {
    /// The node dials the peer at this address.
    Dial(Text),
    /// The node listens at this address for the peer.
    Listen(Text),
}
