//! The blocks that peers give, also after a line was down.
ghost use Rattle.std.specs.Prelude.{◌≡◌};

use crate::patience::{NextStep, next_step};
use crate::turn::Turn;
use node_context::{Context, Event, PullEvent};
use peer_asks::PeerBook;
use std::alloc::AllocError;
use std::sync::Wait;
use std::time::{Clock, Duration};
use sync_blocks::Block;
use sync_names::SafeName;
use sync_pull::BlockSource;
use sync_record::DeviceId;

/// How many milliseconds lie between two looks at whether a peer is back.
const LOOK_PAUSE: u64 = 100;

/// How many times it is looked whether one is back: for five minutes.
const LOOKS: u64 = 3_000;

/// The blocks that a source gives, which are those of these peers. Where none of those that have the file is connected any more, one is waited for, for five minutes at
/// most; then what is missing is asked for.
#[derive(Drop)]
pub(crate) struct PatientSource<'c, 'x, R, G, S> {
    cx: &'c Context<'x, R, G>,
    // The folder.
    id: &'c str,
    source: S,
    peers: &'c [PeerBook<'x>],
    turn: &'c Turn,
    // Whether it waits at all.
    is_patient: bool,
    // The devices that have the file.
    having: Vec<DeviceId>,
}

impl<'c, 'x, R: Clock + Wait, G, S: BlockSource> PatientSource<'c, 'x, R, G, S> {
    /// It waits for nobody yet. Does not allocate.
    pub(crate) fn new(
        cx: &'c Context<'x, R, G>,
        id: &'c str,
        source: S,
        peers: &'c [PeerBook<'x>],
        turn: &'c Turn,
        is_patient: bool,
    ) -> PatientSource<'c, 'x, R, G, S> {
        PatientSource {
            cx,
            id,
            source,
            peers,
            turn,
            is_patient,
            having: Vec::new(cx.alloc),
        }
    }

    /// The pull of this name has ended: nothing more is held for it.
    pub(crate) fn let_go(&mut self, name: &SafeName) {
        self.having.clear();
        self.source.will_ask(&[], name, &[]);
    }

    /// Whether any of the peers is connected.
    pub(crate) fn is_any_up(&self) -> bool {
        self.peers
            .iter()
            .any(|peer| peer.book.connection(self.cx.rt).is_some())
    }

    // Which connection there is with a device.
    fn connection(&self, device: DeviceId) -> Option<u64> {
        let peer = self.peers.iter().find(|peer| peer.device == device)?;
        peer.book.connection(self.cx.rt)
    }

    // Whether one of those is connected that have the file, but for this one.
    fn is_other_up(&self, device: DeviceId) -> bool {
        self.having.iter().any(|other| *other != device && self.connection(*other).is_some())
    }

    // Whether a device that gave nothing is to be asked again, which may be after a wait.
    fn is_asked_again(&self, device: DeviceId, before: Option<u64>) -> bool {
        match self.next_step(device, before) {
            NextStep::AskAgain => true,
            NextStep::GiveUp => false,
            NextStep::Wait => {
                self.wait(device);
                self.connection(device).is_some()
            }
        }
    }

    fn next_step(&self, device: DeviceId, before: Option<u64>) -> NextStep {
        next_step(before, self.connection(device), self.is_other_up(device))
    }

    // Waits until one of those is connected that have the file, if it may. Whether the node stops is looked at.
    fn wait(&self, device: DeviceId) {
        let rt = self.cx.rt;
        if !self.is_patient || self.having.is_empty() || !self.turn.begin_wait(rt) {
            return;
        }
        for _ in 0..LOOKS {
            if self.cx.pause_for(Duration::from_millis(LOOK_PAUSE))
                || self.connection(device).is_some()
                || self.is_other_up(device)
            {
                break;
            }
        }
        self.turn.end_wait(rt);
    }
}

impl<R: Clock + Wait, G, S: BlockSource + Drop> BlockSource for PatientSource<'_, '_, R, G, S> {
    ghost use Rattle.std.specs.Prelude.{◌≡◌};
    ghost use Rattle.node_pull.specs.Waits.{GivesAtLast};

    ghost may_ask = { S.may_ask };

    ghost gives = { λ old device n block given bytes new.
        GivesAtLast S.gives old.source device n block given bytes new.source };

    fn fetch(
        &mut self,
        device: DeviceId,
        name: &SafeName,
        block: &Block,
        bytes: &mut Vec<u8>,
    ) -> Result<bool, AllocError> {
        for _ in self.cx.rt.forever() {
            let before = self.connection(device);
            if self.source.fetch(device, name, block, bytes)? {
                let came = PullEvent::Came(u64::from(block.size));
                self.cx.tell(&Event::Pull(self.id, came));
                return Ok(true);
            }
            if !self.is_asked_again(device, before) {
                return Ok(false);
            }
        }
        unreachable!()
    }

    fn will_ask(&mut self, devices: &[DeviceId], name: &SafeName, blocks: &[Block]) {
        self.having.clear();
        // (without memory for them it waits for nobody)
        let _ = self.having.extend_from_slice(devices);
        self.source.will_ask(devices, name, blocks);
    }
}
