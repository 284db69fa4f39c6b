//! What one peer is asked for ahead.
ghost use Rattle.std.specs.Prelude.{IfSome, MatchResult};
ghost use Rattle.peer_asks.specs.Given.{IsFor};

use crate::ask::Ask;
use crate::fault::AskFault;
use crate::peer::PeerAsks;
use std::alloc::Global;
use std::sync::Wait;
use std::time::Clock;
use sync_blocks::Block;
use sync_names::SafeName;

/// The most blocks of a file that one peer is asked for at one time.
const MAX_AHEAD: usize = 120;

/// From how many bytes on that a peer is asked for at one time, it isn't asked ahead for more.
const MAX_AHEAD_BYTES: u64 = 33_554_432;

/// A block of a file that a peer was asked for ahead.
#[derive(Drop)]
struct Ahead {
    // The place of the block in the file.
    place: usize,
    ask: Ask,
}

/// How a peer is asked ahead.
#[derive(Drop)]
pub(crate) struct Lane {
    // In rising order of their places.
    asks: Vec<Ahead>,
    // How many blocks are asked for at one time.
    window: usize,
}

impl Lane {
    /// Nothing is asked for. Does not allocate.
    pub(crate) fn new(alloc: Global) -> Lane {
        Lane {
            asks: Vec::new(alloc),
            window: 1,
        }
    }

    /// Lets go of all that was asked ahead.
    pub(crate) fn restart<R: Wait, P: PeerAsks>(&mut self, rt: &R, peer: &P) {
        for ahead in self.asks.drain(..) {
            peer.let_go(rt, ahead.ask);
        }
        self.window = 1;
    }

    /// Asks for a block of a file, unless it was asked for ahead, and ahead for those after it, if it is one of these.
    pub(crate) fn ask<R: Wait + Clock, P: PeerAsks>(
        &mut self,
        rt: &R,
        alloc: Global,
        peer: &P,
        name: &SafeName,
        block: &Block,
        blocks: &[Block],
    ) -> Result<Ask, AskFault>
        ensures { MatchResult result (IsFor (P.device peer.now) name.now block.now)
            (P.refuses peer.now name.now block.now) }
    {
        let Some(place) = place_of(blocks, block) else {
            return peer.ask(rt, alloc, name, block);
        };
        let is_passed_over = self.pass_over(rt, peer, place);
        self.window = if is_passed_over {
            1
        } else {
            self.window.saturating_mul(2).min(MAX_AHEAD)
        };
        let ask = match self.take_first(peer, name, block) {
            Some(ask) => ask,
            None => {
                self.restart(rt, peer);
                peer.ask(rt, alloc, name, block)?
            }
        };
        self.ask_ahead(rt, alloc, peer, name, blocks, place.saturating_add(1));
        Ok(ask)
    }

    // The first Request, if it is for this block of this file.
    fn take_first<P: PeerAsks>(&mut self, peer: &P, name: &SafeName, block: &Block) -> Option<Ask>
        ensures { IfSome result (IsFor (P.device peer.now) name.now block.now) }
    {
        let first = self.asks.first()?;
        if !first.ask.is_for(peer.device(), name, block) {
            return None;
        }
        Some(self.asks.remove(0).ask)
    }

    // Lets go of what was asked ahead for blocks before this place. Returns whether there was any.
    fn pass_over<R: Wait, P: PeerAsks>(&mut self, rt: &R, peer: &P, place: usize) -> bool {
        let count = self.asks.partition_point(|ahead| ahead.place < place);
        for ahead in self.asks.drain(..count) {
            peer.let_go(rt, ahead.ask);
        }
        count > 0
    }

    // Asks for more blocks, from this place on or behind those that were asked for, as many as may be asked for at one time, and there is room for.
    fn ask_ahead<R: Wait + Clock, P: PeerAsks>(
        &mut self,
        rt: &R,
        alloc: Global,
        peer: &P,
        name: &SafeName,
        blocks: &[Block],
        from: usize,
    ) {
        let mut place = match self.asks.last() {
            Some(ahead) => ahead.place.saturating_add(1),
            None => from,
        };
        let mut sum = self.asks.iter().fold(0u64, |sum, ahead| {
            sum.saturating_add(u64::from(ahead.ask.block.size))
        });
        for block in blocks.get(place..).unwrap_or(&[]) {
            if self.asks.len() >= self.window || sum >= MAX_AHEAD_BYTES {
                return;
            }
            let Ok(ask) = peer.ask_ahead(rt, alloc, name, block) else {
                return;
            };
            if let Err(refused) = self.asks.push(Ahead { place, ask }) {
                peer.let_go(rt, refused.value.ask);
                return;
            }
            sum = sum.saturating_add(u64::from(block.size));
            place = place.saturating_add(1);
        }
    }
}

// Where the block stands among those of a file, which are in the order of their offsets.
fn place_of(blocks: &[Block], block: &Block) -> Option<usize> {
    let place = blocks
        .binary_search_by(|other| other.offset.cmp(&block.offset))
        .ok()?;
    if blocks[place] == *block {
        Some(place)
    } else {
        None
    }
}
