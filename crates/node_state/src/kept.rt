//! The index ids that are kept of a folder's peers, one at most of each peer.
ghost use Rattle.std.specs.Prelude.{◌≡◌, map, IsTrue, OnErr, OnOk};
ghost use Rattle.std.specs.FinMap.{empty, entries, insert, is_sorted, put};
ghost use Rattle.sync_record.specs.Devices.{bytes_cmp};
ghost use Rattle.node_state.specs.Peers.{pair};

use std::alloc::{AllocError, Global};
use std::cmp::Ordering;
use std::marker::Model;
use sync_record::DeviceId;

/// The index id that is kept of a peer's index of a folder: which index the peer's records are of.
#[derive(Clone, Copy, Debug)]
pub struct PeerIndex {
    pub device: DeviceId,
    /// 0 says that none is kept.
    pub index_id: u64,
}

/// The index ids that are kept for a folder, one at most of a peer. Contracts see a map.
#[derive(Debug, Drop)]
pub struct KeptIndexes {
    kept: Vec<PeerIndex>,
}

impl Model for KeptIndexes {
    ghost use Rattle.node_state.specs.Peers.{Peers, coded_peers};

    ghost Value = { Peers };

    ghost coded = { coded_peers };

    ghost use Rattle.std.specs.FinMap.{from_sorted, is_sorted};
    ghost use Rattle.std.specs.Prelude.{IsTrue, map};
    ghost use Rattle.sync_record.specs.Devices.{bytes_cmp};
    ghost use Rattle.node_state.specs.Peers.{pair};

    ghost view = { λ k. from_sorted (map pair k.kept.items) };

    ghost invariant = { λ k. IsTrue (is_sorted bytes_cmp (map pair k.kept.items)) };
}

impl KeptIndexes {
    /// No index id is kept. Does not allocate.
    pub fn new(alloc: Global) -> KeptIndexes
        ensures { result ≡ empty }
    {
        KeptIndexes {
            kept: Vec::new(alloc),
        }
    }

    /// All of them, by rising identity of the peers. Does not allocate. O(1).
    pub fn as_slice(&self) -> &[PeerIndex]
        ensures { map pair result.now ≡ entries self.now }
    {
        self.kept.as_slice()
    }

    /// Keeps this index id for the peer, in place of one that was kept. Returns `Err` only if it could not be
    /// allocated, and then nothing has changed. O(n) for n peers.
    pub fn insert(&mut self, device: DeviceId, index_id: u64) -> Result<(), AllocError>
        ensures ok { OnOk result (self.new ≡ insert self.old device index_id) }
        ensures err { OnErr result (self.new ≡ self.old) }
    {
        put(&mut self.kept, PeerIndex { device, index_id })
    }
}

// Puts the index id in its place, or in place of that of its peer.
fn put(kept: &mut Vec<PeerIndex>, new: PeerIndex) -> Result<(), AllocError>
    ensures ok { OnOk result (map pair kept.new.items ≡ put bytes_cmp new.device new.index_id (map pair kept.old.items)) }
    ensures err { OnErr result (kept.new.items ≡ kept.old.items) }
{
    for at in 0..kept.len() {
        match kept[at].device.cmp(&new.device) {
            Ordering::Less => {}
            Ordering::Equal => {
                kept[at] = new;
                return Ok(());
            }
            Ordering::Greater => {
                kept.insert(at, new)?;
                return Ok(());
            }
        }
    }
    kept.push(new)?;
    Ok(())
}
