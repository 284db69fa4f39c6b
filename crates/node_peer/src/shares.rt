//! Which folders are not kept alike with a peer, by its ClusterConfig, and why.
ghost use Rattle.std.specs.Prelude.{◌≡◌, ◌==◌, [], find, option_copied};
ghost use Rattle.std.specs.List.{list_any};
ghost use Rattle.node_peer.specs.Lists.{has};
ghost use Rattle.node_peer.specs.Shares.{gap_of, first_index, has_another_index, has_text, index_of, is_own_identity, is_told_as_own, is_with_another_index};

use crate::guest::has;
use bep_messages::{ClusterConfig, Device, Folder, Text};
use node_context::ShareGap;
use peer_conn::folder_of;
use std::alloc::Global;
use sync_record::DeviceId;

/// Why a folder that is shared with the peer here isn't kept alike with it, if it isn't. Does not allocate. O(n) for n folders and devices of the ClusterConfig.
pub(crate) fn gap_of(
    config: &ClusterConfig,
    id: &str,
    me: DeviceId,
    peer: DeviceId,
) -> Option<ShareGap>
    ensures { result ≡ gap_of me peer config.now id.now }
{
    let Some(folder) = folder_of(config, id) else {
        return Some(ShareGap::NotThere);
    };
    if !has(folder, me) {
        return Some(ShareGap::NotWithUs);
    }
    if !has(folder, peer) {
        return Some(ShareGap::WithoutPeer);
    }
    None
}

/// Whether a ClusterConfig is that of a device that has this one's identity: a folder has this device with the number of an index that is none of its own, and
/// the peer with none. (Each device tells the number of its own index.) Does not allocate. O(n m) for n devices of the folders and m indexes of this device.
pub(crate) fn is_own_identity(
    config: &ClusterConfig,
    me: DeviceId,
    peer: DeviceId,
    own: &[u64],
) -> bool
    ensures { result ≡ is_own_identity me peer own.now config.now }
{
    config
        .folders
        .as_slice()
        .iter()
        .any(|folder| is_told_as_own(folder, me, peer, own))
}

fn is_told_as_own(folder: &Folder, me: DeviceId, peer: DeviceId, own: &[u64]) -> bool
    ensures { result ≡ is_told_as_own me peer own.now folder.now }
{
    has_another_index(folder, me, own) && has(folder, peer) && !has_another_index(folder, peer, &[])
}

// Whether a folder has a device with the number of an index that is none of these.
fn has_another_index(folder: &Folder, device: DeviceId, but: &[u64]) -> bool
    ensures { result ≡ has_another_index device but.now folder.now }
{
    folder
        .devices
        .as_slice()
        .iter()
        .any(|of| is_with_another_index(of, device, but))
}

fn is_with_another_index(of: &Device, device: DeviceId, but: &[u64]) -> bool
    ensures { result ≡ is_with_another_index device but.now of.now }
{
    of.id.as_slice() == device.bytes().as_slice()
        && of.index_id != 0
        && !is_one_of(of.index_id, but)
}

fn is_one_of(number: u64, of: &[u64]) -> bool
    ensures { result ≡ list_any (λ n. n == number) of.now }
{
    of.iter().any(|it| *it == number)
}

/// The id of the peer's index that its ClusterConfig has first, or 0 where it has none. Does not allocate. O(n) for n devices of the folders.
pub(crate) fn first_index(config: &ClusterConfig, peer: DeviceId) -> u64
    ensures { result ≡ first_index peer config.now }
{
    match with_index(config, peer) {
        Some(folder) => index_in(folder, peer),
        None => 0,
    }
}

// The first folder that has the device with the number of an index.
fn with_index(config: &ClusterConfig, device: DeviceId) -> Option<&Folder>
    ensures { option_copied result ≡ find (has_another_index device []) config.now.folders }
{
    let folders = config.folders.as_slice();
    folders
        .iter()
        .find(|folder| has_another_index(folder, device, &[]))
}

// The first such number of a folder.
fn index_in(folder: &Folder, device: DeviceId) -> u64
    ensures { result ≡ index_of (find (is_with_another_index device []) folder.now.devices) }
{
    match entry_with_index(folder, device) {
        Some(of) => of.index_id,
        None => 0,
    }
}

fn entry_with_index(folder: &Folder, device: DeviceId) -> Option<&Device>
    ensures { option_copied result ≡ find (is_with_another_index device []) folder.now.devices }
{
    let devices = folder.devices.as_slice();
    devices
        .iter()
        .find(|of| is_with_another_index(of, device, &[]))
}

/// Whether one of the ids is this one.
pub(crate) fn is_among(ids: &[Text], id: &str) -> bool
    ensures { result ≡ list_any (has_text id.now) ids.now }
{
    ids.iter().any(|it| it.as_str() == id)
}

/// Whether the ClusterConfig has a folder whose id differs from this one only in which letters of ASCII are capitals. Where memory runs out, it is said not to.
pub(crate) fn has_other_case(alloc: Global, config: &ClusterConfig, id: &str) -> bool {
    let Ok(id) = id.to_ascii_lowercase(alloc) else {
        return false;
    };
    for folder in config.folders.as_slice() {
        if let Ok(other) = folder.id.as_str().to_ascii_lowercase(alloc) {
            if other.as_str() == id.as_str() {
                return true;
            }
        }
    }
    false
}

/// Whether one of the ids differs from this one only in which letters of ASCII are capitals. Where memory runs out, it is said not to.
pub(crate) fn is_other_case(alloc: Global, ids: &[Text], id: &str) -> bool {
    let Ok(id) = id.to_ascii_lowercase(alloc) else {
        return false;
    };
    for of in ids {
        if let Ok(of) = of.as_str().to_ascii_lowercase(alloc) {
            if of.as_str() == id.as_str() {
                return true;
            }
        }
    }
    false
}
