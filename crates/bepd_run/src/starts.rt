//! The folders and peers that a node starts with, made from its configuration and the state of the last run.
ghost use Rattle.std.specs.Prelude.{◌≡◌, length, map, IfOk};
ghost use Rattle.node_resume.specs.Resumed.{taken};
ghost use Rattle.bepd_run.specs.Renumbered.{number_of, place_of, renumbered};
ghost use Rattle.bepd_run.specs.Starts.{AreFolders, ArePeers, IsFolder, IsPeer, are_shares, told};

use crate::failure::RunFailure;
use crate::naming::peer_address;
use bep_messages::{Items, Text};
use folder_core::FolderCore;
use folder_db::IndexedFolder;
use folder_look::Looking;
use node_config::{
    Config, ConfigFault, FolderConfig, FolderNumber, NumberRule, PeerConfig, Problem, TablePlace,
};
use node_files::Stores;
use node_folder::FolderSettings;
use node_resume::{ResumedFolder, Share, shares_of};
use node_state::{State, StoredFolder};
use node_threads::{NodePeer, StartFolder};
use std::alloc::{AllocError, Global};
use sync_pull::MaxConflicts;

/// What a node keeps the records of a folder in.
pub(crate) type Core = IndexedFolder;

/// The folders of the configuration, in its order, each with what was resumed at its place.
pub(crate) fn folders_of(
    alloc: Global,
    config: &Config,
    resumed: Vec<ResumedFolder>,
) -> Result<Vec<StartFolder<Core>>, RunFailure>
    requires { length resumed.items ≡ length config.now.folders }
    ensures all { IfOk result (λ folders. length folders.items ≡ length config.now.folders) }
    ensures each { IfOk result (λ folders. AreFolders (map taken resumed.items) folders.items config.now.folders) }
{
    let mut folders = Vec::with_capacity(alloc, resumed.len())?;
    for folder in resumed {
        let place = folders.len();
        let kept_as = &config.folders.as_slice()[place];
        folders.push(folder_of(alloc, place, kept_as, folder)?)?;
    }
    Ok(folders)
}

// The folder at this place of the configuration.
fn folder_of(
    alloc: Global,
    place: usize,
    folder: &FolderConfig,
    resumed: ResumedFolder,
) -> Result<StartFolder<Core>, RunFailure>
    ensures { IfOk result (IsFolder folder.now (taken resumed)) }
{
    let Some(max_conflicts) = MaxConflicts::new(folder.max_conflicts) else {
        return Err(out_of_range(place, FolderNumber::MaxConflicts));
    };
    let settings = FolderSettings {
        id: Text::from_str(alloc, folder.id.as_str())?,
        path: Text::from_str(alloc, folder.path.as_str())?,
        index_id: resumed.index_id,
        history_limit: folder.history_limit,
        max_conflicts,
        rescan: folder.rescan,
        looking: Looking::of_number(folder.look),
        trash_days: folder.trash_days,
    };
    let core = resumed.records;
    let kept = core.known(core.me());
    Ok(StartFolder {
        settings,
        core,
        kept,
        is_unsettled: false,
        is_doubted: false,
    })
}

// A number of the folder at the place is out of its range.
fn out_of_range(place: usize, number: FolderNumber) -> RunFailure {
    let NumberRule { key, range, .. } = number.rule();
    RunFailure::Config(ConfigFault::BadKey {
        place: TablePlace::Folder(place.saturating_add(1)),
        key,
        problem: Problem::OutOfRange {
            low: range.low,
            high: range.high,
        },
    })
}

/// The folders that are shared with each peer, in the order of the peers.
pub(crate) fn all_shares(
    alloc: Global,
    config: &Config,
    state: &State,
) -> Result<Vec<Vec<Share>>, AllocError>
    ensures { IfOk result (λ shares. map (λ s. s.items) shares.items ≡ are_shares config.now state.now config.now.peers) }
{
    let peers = config.peers.as_slice();
    let mut shares = Vec::with_capacity(alloc, peers.len())?;
    for peer in peers {
        shares.push(shares_of(alloc, config, state, peer)?)?;
    }
    Ok(shares)
}

/// The peers of the configuration, in its order, each with the shares at its place. Fails with `BadAddress` where an address is none, and if out of memory.
pub(crate) fn peers_of(
    alloc: Global,
    config: &Config,
    shares: &[Vec<Share>],
) -> Result<Vec<NodePeer>, RunFailure>
    requires { length shares.now ≡ length config.now.peers }
    ensures { IfOk result (λ peers. ArePeers (map (λ s. s.items) shares.now) peers.items config.now.peers) }
{
    let mut peers = Vec::with_capacity(alloc, shares.len())?;
    for (place, shares) in shares.iter().enumerate() {
        let peer = &config.peers.as_slice()[place];
        peers.push(peer_of(alloc, place, peer, shares.as_slice())?)?;
    }
    Ok(peers)
}

// The peer at a place of the configuration.
fn peer_of(
    alloc: Global,
    place: usize,
    peer: &PeerConfig,
    shares: &[Share],
) -> Result<NodePeer, RunFailure>
    ensures { IfOk result (IsPeer peer.now shares.now) }
{
    Ok(NodePeer {
        device: peer.device,
        address: peer_address(alloc, place, peer)?,
        shares: told_shares(alloc, shares)?,
    })
}

// The shares, as a node takes them.
fn told_shares(alloc: Global, shares: &[Share]) -> Result<Vec<node_threads::Share>, AllocError>
    ensures { IfOk result (λ all. all.items ≡ map told shares.now) }
{
    let mut all = Vec::with_capacity(alloc, shares.len())?;
    for share in shares {
        all.push(node_threads::Share {
            folder: share.folder,
            kept_index_id: share.kept_index_id,
        })?;
    }
    Ok(all)
}

/// The index id of each folder.
pub(crate) fn index_ids_of(
    alloc: Global,
    folders: &[StartFolder<Core>],
) -> Result<Vec<u64>, AllocError>
    ensures { IfOk result (λ ids. ids.items ≡ map (λ f. f.settings.index_id) folders.now) }
{
    let mut ids = Vec::with_capacity(alloc, folders.len())?;
    for folder in folders {
        ids.push(folder.settings.index_id)?;
    }
    Ok(ids)
}

/// The state, in which each folder of the configuration has the index id at its place. Returns `Err` only if out of memory. O(f s) for f folders and s
/// stored ones.
pub(crate) fn renumbered(
    alloc: Global,
    config: &Config,
    index_ids: &[u64],
    state: State,
) -> Result<State, AllocError>
    ensures { IfOk result (λ all. all.folders ≡ map (renumbered config.now index_ids.now) state.folders) }
{
    let mut folders = Vec::with_capacity(alloc, state.folders.as_slice().len())?;
    for folder in state.folders.into_vec() {
        folders.push(renumber(config, index_ids, folder))?;
    }
    Ok(State {
        folders: Items::from_vec(folders),
    })
}

// The stored folder with the index id at its place.
fn renumber(config: &Config, index_ids: &[u64], folder: StoredFolder) -> StoredFolder
    ensures { result ≡ renumbered config.now index_ids.now folder }
{
    let mut folder = folder;
    if let Some(index_id) = number_of(config, index_ids, &folder.id) {
        folder.index_id = index_id;
    }
    folder
}

// The index id at the place of the folder with this id.
fn number_of(config: &Config, index_ids: &[u64], id: &Text) -> Option<u64>
    ensures { result ≡ number_of config.now index_ids.now id.now }
{
    match place_of(config.folders.as_slice(), id) {
        Some(place) => index_ids.get(place).copied(),
        None => None,
    }
}

// The place of the folder with this id.
fn place_of(folders: &[FolderConfig], id: &Text) -> Option<usize>
    ensures { result ≡ place_of id.now folders.now }
{
    folders
        .iter()
        .position(|folder| folder.id.as_str() == id.as_str())
}

/// What a killed run left of its temporary files is removed also of folders that were away when this run began.
pub(crate) fn begin_again<T: Stores>(alloc: Global, stores: &T, folders: &[StartFolder<Core>]) {
    for folder in folders {
        // (one that is away still is begun once it is back)
        let _ = stores.begin(alloc, folder.settings.path.as_str(), false);
    }
}

/// The folders, whose records are on the disk up to these sequences.
pub(crate) fn saved_up_to(
    folders: Vec<StartFolder<Core>>,
    saved: &[u64],
) -> Vec<StartFolder<Core>> {
    let mut folders = folders;
    for (place, folder) in folders.iter_mut().enumerate() {
        folder.kept = match saved.get(place) {
            Some(saved) => folder.kept.min(*saved),
            None => 0,
        };
    }
    folders
}
