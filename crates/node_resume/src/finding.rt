//! With whom a folder is shared, and what is stored under an id.
ghost use Rattle.std.specs.Prelude.{◌≡◌, option_copied};
ghost use Rattle.node_resume.specs.Resumed.{has_place, is_kept, is_shared_with, stored_of};

use node_config::{Config, PeerConfig};
use node_state::StoredFolder;
use sync_record::DeviceId;

/// The first stored folder of this id. O(n) for n folders.
pub(crate) fn stored_of<'a>(folders: &'a [StoredFolder], id: &str) -> Option<&'a StoredFolder>
    ensures { option_copied result ≡ stored_of id.now folders.now }
{
    folders.iter().find(|folder| folder.id.as_str() == id)
}

/// Whether records of the device stay in the folder of this device at the place: its own, and those of the devices that it is
/// shared with. O(p) for p places of all peers.
pub(crate) fn is_kept(config: &Config, place: usize, me: DeviceId, device: DeviceId) -> bool
    ensures { result ≡ is_kept config.now place me device }
{
    device == me || is_shared_with(config, place, device)
}

// Whether a peer of the configuration is this device and has the place among its folders.
fn is_shared_with(config: &Config, place: usize, device: DeviceId) -> bool
    ensures { result ≡ is_shared_with config.now place device }
{
    config
        .peers
        .as_slice()
        .iter()
        .any(|peer| peer.device == device && has_place(peer, place))
}

fn has_place(peer: &PeerConfig, place: usize) -> bool
    ensures { result ≡ has_place place peer.now }
{
    peer.folders
        .as_slice()
        .iter()
        .any(|folder| *folder == place)
}
