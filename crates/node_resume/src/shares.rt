//! What is shared with a peer.
ghost use Rattle.std.specs.Prelude.{◌≡◌, ◌==◌, bytes_eq, find, IfOk, option_copied, unwrap_or};
ghost use Rattle.std.specs.FinMap.{get};
ghost use Rattle.std.specs.List.{list_any};
ghost use Rattle.node_resume.specs.Shares.{kept_index_id, shares_of};

use crate::finding::stored_of;
use node_config::{Config, PeerConfig};
use node_state::{KeptIndexes, PeerIndex, State};
use std::alloc::{AllocError, Global};
use sync_record::DeviceId;

/// A folder that is shared with a peer.
#[derive(Clone, Copy, Debug)]
pub struct Share {
    /// Its place among the node's folders.
    pub folder: usize,
    /// The id of the peer's index of which there are records, or 0 for none.
    pub kept_index_id: u64,
}

/// The folders that are shared with a peer, each once, in the order in which they first stand there, with the index id that
/// the state keeps of the peer's index of the folder of the same id: 0 where it keeps none, and where there is no such folder.
///
/// Returns `Err` only if out of memory, and never where there are none. O(n (n + f + p)) for n places of the peer, f stored
/// folders and p peers of which a number is kept.
pub fn shares_of(
    alloc: Global,
    config: &Config,
    state: &State,
    peer: &PeerConfig,
) -> Result<Vec<Share>, AllocError>
    ensures { IfOk result (λ shares. shares.items ≡ shares_of config.now state.now peer.now) }
{
    let mut shares = Vec::new(alloc);
    for folder in peer.folders.as_slice() {
        let folder = *folder;
        if !has_share(shares.as_slice(), folder) {
            shares.push(Share {
                folder,
                kept_index_id: kept_index_id(config, state, peer.device, folder),
            })?;
        }
    }
    Ok(shares)
}

fn has_share(shares: &[Share], folder: usize) -> bool
    ensures { result ≡ list_any (λ share. share.folder == folder) shares.now }
{
    shares.iter().any(|share| share.folder == folder)
}

// The index id that the state keeps of a device's index of the folder at a place, or 0.
fn kept_index_id(config: &Config, state: &State, device: DeviceId, place: usize) -> u64
    ensures { result ≡ kept_index_id config.now state.now device place }
{
    let Some(folder) = config.folders.as_slice().get(place) else {
        return 0;
    };
    match stored_of(state.folders.as_slice(), folder.id.as_str()) {
        None => 0,
        Some(stored) => number_of(&stored.peers, device),
    }
}

// The index id that is kept of a device, or 0.
fn number_of(peers: &KeptIndexes, device: DeviceId) -> u64
    ensures { result ≡ unwrap_or (get peers.now device) 0 }
{
    match kept_of(peers.as_slice(), device) {
        None => 0,
        Some(kept) => kept.index_id,
    }
}

fn kept_of(peers: &[PeerIndex], device: DeviceId) -> Option<&PeerIndex>
    ensures { option_copied result ≡ find (λ kept. bytes_eq kept.device device) peers.now }
{
    peers.iter().find(|kept| kept.device == device)
}
