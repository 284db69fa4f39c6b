//! A peer, as who asks it for blocks sees it.
ghost use Rattle.std.specs.Prelude.{◌≡◌, ℕ, List, MatchBool, MatchResult, None, Option, Some};
ghost use Rattle.sync_blocks.specs.declared.block.Block.{Block};
ghost use Rattle.sync_record.specs.Devices.{Identity};
ghost use Rattle.sync_record.specs.Records.{Name};
ghost use Rattle.peer_asks.specs.Given.{IsFor};
ghost use Rattle.peer_asks.specs.declared.fault.AskFault.{AskFault};
ghost use Rattle.peer_asks.specs.declared.ask.Ask.{Ask};

use crate::ask::Ask;
use crate::book::{AskBook, AskId};
use crate::fault::AskFault;
use std::alloc::Global;
use std::sync::Wait;
use std::time::Clock;
use sync_blocks::Block;
use sync_names::SafeName;
use sync_record::DeviceId;

/// A peer that is asked for blocks of one folder.
pub trait PeerAsks {
    /// The device that it is.
    ghost device: { Self → Identity };

    /// Why it is not asked for a block of a file.
    ghost refuses: { Self → Name → Block → AskFault → Type 0 };

    /// What comes of a Request: its bytes, or none.
    ghost brings: { Self → Ask → Option (List ℕ) → Type 0 };

    /// The device.
    fn device(&self) -> DeviceId
        ensures { result ≡ device self.now };

    /// Asks for a block of a file. Does not wait.
    fn ask<R: Wait + Clock>(
        &self,
        rt: &R,
        alloc: Global,
        name: &SafeName,
        block: &Block,
    ) -> Result<Ask, AskFault>
        ensures { MatchResult result (IsFor (device self.now) name.now block.now)
            (refuses self.now name.now block.now) };

    /// Asks for a block that nobody waits for yet, if there is room for it. Does not wait.
    fn ask_ahead<R: Wait + Clock>(
        &self,
        rt: &R,
        alloc: Global,
        name: &SafeName,
        block: &Block,
    ) -> Result<Ask, AskFault>
        ensures { MatchResult result (IsFor (device self.now) name.now block.now)
            (refuses self.now name.now block.now) };

    /// Waits for the bytes of a Request, and leaves them in `bytes`, in place of what is there. Returns `false`, and leaves `bytes` as it
    /// is, where none come. The Request is then over.
    fn wait_for<R: Wait + Clock>(&self, rt: &R, ask: Ask, bytes: &mut Vec<u8>) -> bool
        ensures { MatchBool result (brings self.now ask (Some bytes.new.items))
            ((bytes.new.items ≡ bytes.old.items) × brings self.now ask None) };

    /// Nobody will wait for the bytes of a Request.
    fn let_go<R: Wait>(&self, rt: &R, ask: Ask);
}

/// A peer and the Requests to it.
#[derive(Clone, Copy)]
pub struct PeerBook<'a> {
    /// The peer.
    pub device: DeviceId,
    /// Its Requests.
    pub book: &'a AskBook,
}

/// A peer and the Requests to it for blocks of one folder.
#[derive(Clone, Copy)]
pub struct FolderPeer<'a> {
    /// The peer.
    pub device: DeviceId,
    /// Its Requests.
    pub book: &'a AskBook,
    /// The folder's id.
    pub folder: &'a str,
}

impl FolderPeer<'_> {
    fn asked(&self, name: SafeName, block: &Block, id: AskId) -> Ask
        ensures { IsFor self.now.device name block.now result }
    {
        Ask {
            device: self.device,
            name,
            block: *block,
            id,
        }
    }
}

impl PeerAsks for FolderPeer<'_> {
    ghost use Rattle.std.specs.Prelude.{⊤};

    ghost device = { λ peer. peer.device };

    ghost refuses = { λ _ _ _ _. ⊤ };

    ghost brings = { λ _ _ _. ⊤ };

    fn device(&self) -> DeviceId {
        self.device
    }

    fn ask<R: Wait + Clock>(
        &self,
        rt: &R,
        alloc: Global,
        name: &SafeName,
        block: &Block,
    ) -> Result<Ask, AskFault> {
        let copy = name.copy()?;
        let id = self.book.ask(rt, alloc, self.folder, name, block)?;
        Ok(self.asked(copy, block, id))
    }

    fn ask_ahead<R: Wait + Clock>(
        &self,
        rt: &R,
        alloc: Global,
        name: &SafeName,
        block: &Block,
    ) -> Result<Ask, AskFault> {
        let copy = name.copy()?;
        let id = self.book.ask_ahead(rt, alloc, self.folder, name, block)?;
        Ok(self.asked(copy, block, id))
    }

    fn wait_for<R: Wait + Clock>(&self, rt: &R, ask: Ask, bytes: &mut Vec<u8>) -> bool {
        self.book.wait_for(rt, ask.id, bytes)
    }

    fn let_go<R: Wait>(&self, rt: &R, ask: Ask) {
        self.book.let_go(rt, ask.id);
    }
}
