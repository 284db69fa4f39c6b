//! What the peer said first of the folders that are shared with it, and why a connection can't go on.
ghost use Rattle.std.specs.Prelude.{◌≡◌, ◌<◌, if◌then◌else◌, false, length, map, not, position, true, IfOk, MatchOption, None};
ghost use Rattle.std.specs.List.{list_any};
ghost use Rattle.peer_link.specs.Told.{Begins, Loses, LosesDiffering, WithoutNumber, differs, is_of, is_same, or_else, told_in, untold};
ghost use Rattle.peer_reader.specs.Effects.{index_told};
ghost use Rattle.peer_link.specs.declared.told.Anew.TheVariants.{OtherFolders, RecordsOutside};

use bep_messages::{ClusterConfig, Text};
use peer_conn::{entry_of, folder_of};
use peer_reader::ReaderFolder;
use std::alloc::{AllocError, Global};
use sync_record::DeviceId;

/// Why a connection is ended from this side, and another one is to begin at once.
#[derive(Clone, Copy, Debug, PartialEq, Eq)]
pub enum Anew {
    /// The peer shares another choice of the folders than when the connection began, has paused one of them or goes on with it, or has another index of it. This
    /// device tells its records by the first ClusterConfig of a connection, so it needs another connection for that.
    OtherFolders,
    /// Records came of a folder that is shared with the peer, and that the peer's last ClusterConfig doesn't have, so they were passed over.
    RecordsOutside,
}

impl Anew {
    /// What is told of it.
    pub fn as_str(self) -> &'static str {
        match self {
            Anew::OtherFolders =>
                "it shares other folders now, or has paused one, or goes on with one",
            Anew::RecordsOutside => "it sent records of a folder before it said that it shares it",
        }
    }
}

/// What a ClusterConfig of the peer says of a folder.
#[derive(Clone, Copy, Debug)]
pub(crate) struct Told {
    // Whether it has the folder.
    is_shared: bool,
    // Whether the folder is paused there.
    is_paused: bool,
    // The number of the peer's index of it, or 0 for none.
    index_id: u64,
}

impl Told {
    fn is_same(self, other: Told) -> bool
        ensures { result ≡ is_same self other }
    {
        self.is_shared == other.is_shared
            && self.is_paused == other.is_paused
            && self.index_id == other.index_id
    }
}

// What a ClusterConfig of the peer says of the folder with this id. Does not allocate. O(n).
fn told_in(config: &ClusterConfig, id: &str, peer: DeviceId) -> Told
    ensures { result ≡ told_in peer config.now id.now }
{
    let Some(folder) = folder_of(config, id) else {
        return Told {
            is_shared: false,
            is_paused: false,
            index_id: 0,
        };
    };
    Told {
        is_shared: true,
        is_paused: folder.paused,
        index_id: index_in(config, id, peer),
    }
}

// A folder of which nothing was told yet.
fn untold_of<W>(alloc: Global, folder: &ReaderFolder<W>) -> Result<ToldFolder, AllocError>
    ensures { IfOk result (λ told. told ≡ untold folder.now) }
{
    Ok(ToldFolder {
        id: Text::from_str(alloc, folder.id.as_str())?,
        first: Told {
            is_shared: false,
            is_paused: false,
            index_id: 0,
        },
        is_lost: false,
    })
}

fn index_in(config: &ClusterConfig, id: &str, peer: DeviceId) -> u64
    ensures { result ≡ index_told peer config.now id.now }
{
    match entry_of(config, id, peer) {
        Some(device) => device.index_id,
        None => 0,
    }
}

/// A folder that is shared with the peer.
#[derive(Debug, Drop)]
pub(crate) struct ToldFolder {
    id: Text,
    // What the peer's first ClusterConfig says of it.
    first: Told,
    // Whether records of it were passed over, or a later ClusterConfig says another thing of it.
    is_lost: bool,
}

impl ToldFolder {
    // Whether this ClusterConfig says another thing of it than the first.
    fn differs(&self, config: &ClusterConfig, peer: DeviceId) -> bool
        ensures { result ≡ differs peer config.now self.now }
    {
        !told_in(config, self.id.as_str(), peer).is_same(self.first)
    }
}

/// What the peer's first ClusterConfig says of the folders that are shared with it, and what came since that a connection can't go on with.
#[derive(Debug, Drop)]
pub struct ToldFolders {
    peer: DeviceId,
    folders: Vec<ToldFolder>,
    // Whether the first ClusterConfig came.
    has_begun: bool,
    anew: Option<Anew>,
}

impl ToldFolders {
    /// Nothing came yet, and these folders are shared with the peer. Fails only if out of memory. O(n) for n bytes of their ids.
    pub(crate) fn new<W>(
        alloc: Global,
        peer: DeviceId,
        folders: &[ReaderFolder<W>],
    ) -> Result<ToldFolders, AllocError>
        ensures untold { IfOk result (λ told. told.folders.items ≡ map untold folders.now) }
        ensures begun { IfOk result (λ told. (told.peer ≡ peer) × (told.has_begun ≡ false) × (told.anew ≡ None)) }
    {
        let mut untold = Vec::with_capacity(alloc, folders.len())?;
        for folder in folders {
            untold.push(untold_of(alloc, folder)?)?;
        }
        Ok(ToldFolders {
            peer,
            folders: untold,
            has_begun: false,
            anew: None,
        })
    }

    /// A ClusterConfig came. Returns whether it is the first. Does not allocate. O(n m) for n folders, and m folders and devices of the ClusterConfig.
    pub(crate) fn hear(&mut self, config: &ClusterConfig) -> bool
        ensures first { result ≡ not self.old.has_begun }
        ensures begun { (self.new.has_begun ≡ true) × (self.new.peer ≡ self.old.peer) }
        ensures begins { result ≡ true → Begins self.old.peer config.now self.old.folders.items self.new.folders.items
            × (self.new.anew ≡ self.old.anew) }
        ensures later { result ≡ false → LosesDiffering self.old.peer config.now self.old.folders.items self.new.folders.items
            × (self.new.anew ≡ (if list_any (differs self.old.peer config.now) self.old.folders.items
            then or_else self.old.anew OtherFolders else self.old.anew)) }
    {
        if !self.has_begun {
            self.begin(config);
            return true;
        }
        let is_other = self.differs(config);
        self.lose_differing(config);
        if is_other {
            self.begin_anew(Anew::OtherFolders);
        }
        false
    }

    // Whether this ClusterConfig says another thing of some folder than the first.
    fn differs(&self, config: &ClusterConfig) -> bool
        ensures { result ≡ list_any (differs self.now.peer config.now) self.now.folders.items }
    {
        let peer = self.peer;
        self.folders
            .iter()
            .any(|folder| folder.differs(config, peer))
    }

    // No number is kept of those of which it says another thing.
    fn lose_differing(&mut self, config: &ClusterConfig)
        ensures lost { LosesDiffering self.old.peer config.now self.old.folders.items self.new.folders.items }
        ensures same { (self.new.peer ≡ self.old.peer) × (self.new.anew ≡ self.old.anew)
            × (self.new.has_begun ≡ self.old.has_begun) }
    {
        let peer = self.peer;
        for folder in self.folders.iter_mut() {
            folder.is_lost = folder.is_lost || folder.differs(config, peer);
        }
    }

    // The first ClusterConfig came.
    fn begin(&mut self, config: &ClusterConfig)
        ensures begins { Begins self.old.peer config.now self.old.folders.items self.new.folders.items }
        ensures same { (self.new.peer ≡ self.old.peer) × (self.new.anew ≡ self.old.anew) × (self.new.has_begun ≡ true) }
    {
        self.has_begun = true;
        let peer = self.peer;
        for folder in self.folders.iter_mut() {
            folder.first = told_in(config, folder.id.as_str(), peer);
        }
    }

    /// Records of the folder with this id were passed over, since the last ClusterConfig doesn't have it, or it isn't shared with the peer.
    pub(crate) fn pass_over(&mut self, id: &str)
        ensures peer { self.new.peer ≡ self.old.peer }
        ensures lost { MatchOption (position (is_of id.now) self.old.folders.items)
            (self.new.folders.items ≡ self.old.folders.items)
            (λ k. Loses k self.old.folders.items self.new.folders.items) }
        ensures anew { MatchOption (position (is_of id.now) self.old.folders.items)
            (self.new.anew ≡ self.old.anew)
            (λ k. self.new.anew ≡ or_else self.old.anew RecordsOutside) }
    {
        if let Some(at) = self.place_of(id) {
            self.lose(at);
        }
    }

    fn place_of(&self, id: &str) -> Option<usize>
        ensures { result ≡ position (is_of id.now) self.now.folders.items }
    {
        self.folders
            .iter()
            .position(|folder| folder.id.as_str() == id)
    }

    // Records of the folder at a place were passed over.
    fn lose(&mut self, at: usize)
        requires { at < length self.old.folders.items }
        ensures same { (self.new.peer ≡ self.old.peer) × (self.new.has_begun ≡ self.old.has_begun) }
        ensures lost { Loses at self.old.folders.items self.new.folders.items }
        ensures anew { self.new.anew ≡ or_else self.old.anew RecordsOutside }
    {
        self.folders[at].is_lost = true;
        self.begin_anew(Anew::RecordsOutside);
    }

    // The first reason is the one that is told.
    fn begin_anew(&mut self, why: Anew)
        ensures same { (self.new.peer ≡ self.old.peer) × (self.new.folders ≡ self.old.folders) × (self.new.has_begun ≡ self.old.has_begun) }
        ensures anew { self.new.anew ≡ or_else self.old.anew why }
    {
        if self.anew.is_none() {
            self.anew = Some(why);
        }
    }

    /// Why the connection can't go on, if it can't.
    pub fn anew(&self) -> Option<Anew>
        ensures { result ≡ self.now.anew }
    {
        self.anew
    }

    /// Of the folders with which the connection couldn't go on, no number of the peer's index is kept any more, so that all of it comes again. They are those that the
    /// reader has, in its order. O(n) for n folders.
    pub fn forget_lost<W>(&self, folders: &mut [ReaderFolder<W>])
        ensures { WithoutNumber self.now.folders.items folders.old folders.new }
    {
        for at in 0..folders.len().min(self.folders.len()) {
            if self.folders[at].is_lost {
                folders[at].kept_index_id = 0;
            }
        }
    }
}
