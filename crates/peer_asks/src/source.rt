//! The blocks that peers give, for a puller.
ghost use Rattle.std.specs.Prelude.{◌≡◌, bytes_eq};
ghost use Rattle.std.specs.List.{position};

use crate::lane::Lane;
use crate::peer::{FolderPeer, PeerAsks, PeerBook};
use std::alloc::{AllocError, Global};
use std::sync::Wait;
use std::time::Clock;
use sync_blocks::Block;
use sync_names::SafeName;
use sync_pull::BlockSource;
use sync_record::DeviceId;

/// The blocks of one folder that its peers give, for one puller. A peer without a connection gives none.
///
/// A peer that is asked for blocks of a file one after another, as they were named by `will_ask`, is asked ahead for those that follow:
/// first for one, and each time twice as many, up to 120 blocks or 32 MiB at one time. Where blocks are passed over, since they are found
/// elsewhere, it begins with one again. So a file whose blocks come from peers is limited by the line, and one of which a few blocks
/// are new costs little more than these.
#[derive(Drop)]
pub struct PeerSource<'a, R, P> {
    rt: &'a R,
    alloc: Global,
    peers: Vec<P>,
    // What each is asked for ahead.
    lanes: Vec<Lane>,
    // The blocks of the file that was named last.
    blocks: Vec<Block>,
}

impl<'a, R: Wait + Clock> PeerSource<'a, R, FolderPeer<'a>> {
    /// The blocks of the folder with this id that these peers give. Fails only if out of memory.
    pub fn new(
        rt: &'a R,
        alloc: Global,
        folder: &'a str,
        peers: &[PeerBook<'a>],
    ) -> Result<PeerSource<'a, R, FolderPeer<'a>>, AllocError> {
        let mut of_folder = Vec::with_capacity(alloc, peers.len())?;
        let mut lanes = Vec::with_capacity(alloc, peers.len())?;
        for peer in peers {
            of_folder.extend_from_slice(&[FolderPeer {
                device: peer.device,
                book: peer.book,
                folder,
            }])?;
            lanes.push(Lane::new(alloc))?;
        }
        Ok(PeerSource {
            rt,
            alloc,
            peers: of_folder,
            lanes,
            blocks: Vec::new(alloc),
        })
    }
}

impl<R: Wait + Clock, P: PeerAsks> PeerSource<'_, R, P> {
    /// Lets go of all that was asked ahead: call it once a file is pulled, so that no answers are held for it.
    pub fn let_go(&mut self)
        ensures { self.new.peers.items ≡ self.old.peers.items }
    {
        self.blocks.clear();
        for (lane, peer) in self.lanes.iter_mut().zip(self.peers.iter()) {
            lane.restart(self.rt, peer);
        }
    }
}

impl<R: Wait + Clock, P: PeerAsks + Drop> BlockSource for PeerSource<'_, R, P> {
    ghost use Rattle.std.specs.Prelude.{◌≡◌, ⊤};
    ghost use Rattle.peer_asks.specs.Given.{GivesBlock};

    ghost may_ask = { λ _. ⊤ };

    ghost gives = { λ old device n block given bytes new.
        GivesBlock P.device P.refuses P.brings old.peers.items device n block given bytes
        × (new.peers.items ≡ old.peers.items) };

    fn fetch(
        &mut self,
        device: DeviceId,
        name: &SafeName,
        block: &Block,
        bytes: &mut Vec<u8>,
    ) -> Result<bool, AllocError> {
        let Some(at) = place_of_peer(self.peers.as_slice(), device) else {
            return Ok(false);
        };
        let peer = &self.peers[at];
        let asked = match self.lanes.get_mut(at) {
            Some(lane) => lane.ask(
                self.rt,
                self.alloc,
                peer,
                name,
                block,
                self.blocks.as_slice(),
            ),
            None => peer.ask(self.rt, self.alloc, name, block),
        };
        match asked {
            Ok(ask) => Ok(peer.wait_for(self.rt, ask, bytes)),
            Err(fault) if fault.is_out_of_memory() => Err(AllocError),
            Err(_) => Ok(false),
        }
    }

    fn will_ask(&mut self, _devices: &[DeviceId], _name: &SafeName, blocks: &[Block]) {
        self.let_go();
        // (without memory for them the blocks are asked for one by one)
        let _ = self.blocks.extend_from_slice(blocks);
    }
}

// Where the device stands among the peers, if it is one.
fn place_of_peer<P: PeerAsks>(peers: &[P], device: DeviceId) -> Option<usize>
    ensures { result ≡ position (λ p. bytes_eq (P.device p) device) peers.now }
{
    peers.iter().position(|peer| peer.device() == device)
}
