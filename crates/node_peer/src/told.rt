//! What this device tells a peer of itself: its Hello, and its ClusterConfig.
ghost use Rattle.std.specs.Prelude.{◌≡◌};
ghost use Rattle.node_peer.specs.Told.{IsKnown, received};

use bep_messages::{ClusterConfig, Hello, Items, Text};
use folder_calls::FolderCalls;
use node_context::VERSION;
use peer_conn::{FolderTold, IndexerFolder, KeptCalls, cluster_config};
use peer_link::LinkFolders;
use peer_reader::ReaderFolder;
use std::alloc::{AllocError, Global};
use sync_record::DeviceId;

/// The Hello of this device, by its name.
pub(crate) fn hello_of(alloc: Global, name: &str) -> Result<Hello, AllocError> {
    Ok(Hello {
        device_name: Text::from_str(alloc, name)?,
        client_name: Text::from_str(alloc, "bepd")?,
        client_version: Text::from_string(format!(in alloc; "v{VERSION}")?),
    })
}

/// The ClusterConfig of this device for the peer.
pub(crate) fn own_config<S, W: KeptCalls>(
    alloc: Global,
    peer: DeviceId,
    name: &str,
    folders: &mut LinkFolders<S, W>,
) -> Result<ClusterConfig, AllocError> {
    let known = known_of(alloc, peer, folders.read.as_mut_slice())?;
    let (read, indexed) = (folders.read.as_slice(), folders.indexed.as_slice());
    let Some(first) = read.first() else {
        return Ok(ClusterConfig {
            folders: Items::new(alloc),
        });
    };
    let me = first.calls.me();
    let mut told = Vec::with_capacity(alloc, read.len())?;
    for at in 0..read.len() {
        let (Some(folder), Some(indexed), Some(known)) = (
            read.get(at),
            indexed.get(at),
            known.get(at),
        ) else {
            break;
        };
        told.push(folder_told(folder, indexed, *known))?;
    }
    cluster_config(alloc, me, name, peer, told.as_slice())
}

// What the peer is told of a folder.
fn folder_told<'a, W>(
    folder: &'a ReaderFolder<W>,
    indexed: &IndexerFolder<W>,
    known: Known,
) -> FolderTold<'a>
    ensures id { result.id.now ≡ folder.now.id }
    ensures own { (result.index_id ≡ indexed.now.index_id) × (result.sequence ≡ known.own) }
    ensures peers { (result.peer_index_id ≡ folder.now.kept_index_id)
        × (result.peer_sequence ≡ received folder.now.kept_index_id known.peers) }
{
    FolderTold {
        id: folder.id.as_str(),
        index_id: indexed.index_id,
        sequence: known.own,
        peer_index_id: folder.kept_index_id,
        peer_sequence: received(folder.kept_index_id, known.peers),
    }
}

// The sequence up to which the peer's index with this number was received without a gap. Where records of it were passed over no number is kept, so that all of
// it comes again.
fn received(kept_index_id: u64, known: u64) -> u64
    ensures { result ≡ received kept_index_id known }
{
    if kept_index_id == 0 { 0 } else { known }
}

/// The greatest sequences of a folder that this device knows: of its own records as far as they are kept, and of the peer's.
#[derive(Clone, Copy)]
pub(crate) struct Known {
    own: u64,
    peers: u64,
}

fn known_of<W: KeptCalls>(
    alloc: Global,
    peer: DeviceId,
    read: &mut [ReaderFolder<W>],
) -> Result<Vec<Known>, AllocError> {
    let mut known = Vec::with_capacity(alloc, read.len())?;
    for folder in read.iter_mut() {
        known.push(known_by(peer, &mut folder.calls))?;
    }
    Ok(known)
}

// What the folder knows, of this device and of the peer.
fn known_by<W: KeptCalls>(peer: DeviceId, calls: &mut W) -> Known
    ensures folder { W.folder calls.new ≡ W.folder calls.old }
    ensures known { IsKnown (W.says (W.folder calls.old)) peer (W.view calls.old) result (W.view calls.new) }
{
    let kept = calls.kept_up_to();
    let me = calls.me();
    let own = calls.known(me).value;
    let peers = calls.known(peer).value;
    Known {
        own: own.min(kept),
        peers,
    }
}
