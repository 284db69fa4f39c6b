//! The state that a run leaves.
ghost use Rattle.std.specs.Prelude.{◌≡◌, fold, length, map, IfOk, OnOk};
ghost use Rattle.std.specs.FinMap.{insert};
ghost use Rattle.node_resume.specs.Left.{folders_left, numbers_of, peers_left};

use crate::shares::Share;
use bep_messages::{Items, Text};
use folder_core::FolderCore;
use folder_db::IndexedFolder;
use node_config::{Config, FolderConfig, PeerConfig};
use node_state::{KeptIndexes, State, StoredFolder};
use std::alloc::{AllocError, Global};
use sync_record::DeviceId;

/// The state of a node that ends, in which each folder of the configuration is stored once, in its order: under its id, with the
/// index id and the records at its place. Of each peer it keeps the index ids at the peer's place in `kept` that aren't 0,
/// which are those of its shares, in their order, each in the folder at the share's place. Where a folder has two numbers of one
/// device, the later counts.
///
/// Returns `Err` only if out of memory. The records are not copied but shared. O(n + f p) for n records, f folders and p shares
/// of all peers, and the copies of the ids.
pub fn state_left(
    alloc: Global,
    config: &Config,
    index_ids: &[u64],
    shares: &[Vec<Share>],
    records: Vec<IndexedFolder>,
    kept: &[Vec<u64>],
) -> Result<State, AllocError>
    requires index_ids { length index_ids.now ≡ length config.now.folders }
    requires records { length records.items ≡ length config.now.folders }
    ensures { IfOk result (λ state. state.folders
        ≡ folders_left config.now index_ids.now (map (λ s. s.items) shares.now)
        (map (λ r. r.folder) records.items) (map (λ k. k.items) kept.now)) }
{
    let mut folders = Items::new(alloc);
    for folder in records {
        let place = folders.as_slice().len();
        let peers = peers_left(alloc, config.peers.as_slice(), place, shares, kept)?;
        let config = &config.folders.as_slice()[place];
        folders.push(folder_left(alloc, config, index_ids[place], &folder, peers)?)?;
    }
    Ok(State { folders })
}

// A folder of the configuration as it is stored.
fn folder_left(
    alloc: Global,
    config: &FolderConfig,
    index_id: u64,
    records: &IndexedFolder,
    peers: KeptIndexes,
) -> Result<StoredFolder, AllocError>
    ensures { IfOk result (λ folder. folder
        ≡ record { id = config.now.id; index_id = index_id; folder = records.now.folder; peers = peers }) }
{
    Ok(StoredFolder {
        id: Text::from_str(alloc, config.id.as_str())?,
        index_id,
        folder: records.plain_copy()?,
        peers,
    })
}

// The ids of the peers' indexes that the records of the folder at this place are of.
fn peers_left(
    alloc: Global,
    peers: &[PeerConfig],
    place: usize,
    shares: &[Vec<Share>],
    kept: &[Vec<u64>],
) -> Result<KeptIndexes, AllocError>
    ensures { IfOk result (λ indexes. indexes
        ≡ peers_left place peers.now (map (λ s. s.items) shares.now) (map (λ k. k.items) kept.now)) }
{
    let mut indexes = KeptIndexes::new(alloc);
    for i in 0..peers.len().min(shares.len()).min(kept.len()) {
        keep_numbers(&mut indexes, place, peers[i].device, &shares[i], &kept[i])?;
    }
    Ok(indexes)
}

// Keeps those of a peer's numbers that aren't 0 and are of the folder at this place.
fn keep_numbers(
    indexes: &mut KeptIndexes,
    place: usize,
    device: DeviceId,
    shares: &[Share],
    kept: &[u64],
) -> Result<(), AllocError>
    ensures { OnOk result (indexes.new
        ≡ fold (λ m e. insert m e.0 e.1) indexes.old (numbers_of place device shares.now kept.now)) }
{
    for (share, index_id) in shares.iter().zip(kept.iter()) {
        if share.folder == place && *index_id != 0 {
            indexes.insert(device, *index_id)?;
        }
    }
    Ok(())
}
