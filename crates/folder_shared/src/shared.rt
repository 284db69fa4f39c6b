//! A folder that threads share, and the passes of its callers.
ghost use Rattle.std.specs.Prelude.{◌≡◌};
ghost use Rattle.std.proofs.Props.{props};
ghost use Rattle.std.specs.Coded.{codes};
ghost use Rattle.folder_core.specs.Codes.{coded_folder};
ghost use Rattle.folder_calls.specs.Codes.{coded_history};
ghost use Rattle.crossbeam_channel.specs.Claims.{IsSeatAt};
ghost use Rattle.crossbeam_channel.specs.Ends.{sends_on, receives_on};

use crate::blank::{BlankRule, Origin};
use crate::known::Known;
use crate::mark::Mark;
use crate::rule::OneHistory;
use atomic_table::Table;
use crossbeam_channel::{Pass as ChannelPass, RuledReceiver, RuledSender};
use folder_calls::RecordedFolder;
use folder_core::FolderCore;
use std::alloc::Global;
use sync_record::DeviceId;

/// A token of the channel that is the lock.
pub type Token<C> = ChannelPass<RecordedFolder<C>, Known>;

/// The place of the blank token, from which that of each pass is cut. A call may have taken it.
#[derive(Drop)]
pub struct BlankSlot<C: FolderCore + Drop> {
    pub(crate) table: Table<Option<Token<C>>, Origin<C>, Origin<C>, BlankRule, Global>,
    ghost sized: { (table.shared.table_id.words ≡ 1) × (table.shared.table_id.slots ≡ 1) },
}

/// A folder under its lock. Each call waits until no other has the folder, and then makes one change or one read of it.
#[derive(Drop)]
pub struct LockedFolder<C: FolderCore + Drop> {
    pub(crate) sender: RuledSender<RecordedFolder<C>, Known, OneHistory>,
    pub(crate) receiver: RuledReceiver<RecordedFolder<C>, Known, OneHistory>,
    pub(crate) mark: Mark<C>,
    pub(crate) me: DeviceId,
    ghost one: { receives_on receiver ≡ sends_on sender },
    ghost mine: { me ≡ mark.view.opening.me },
}

/// A folder that threads share: it gives out passes, and is called by them as a [`LockedFolder`].
#[derive(Drop)]
pub struct SharedFolder<C: FolderCore + Drop> {
    pub(crate) locked: LockedFolder<C>,
    pub(crate) blank: BlankSlot<C>,
    ghost of: { IsSeatAt (sends_on locked.sender) blank.table.shared.key.seat.value } by { Prim.hlevel (props, codes, coded_history, coded_folder) },
    ghost same: { blank.table.shared.key.first.value
        ≡ locked.mark.view } by { Prim.hlevel (props, codes, coded_history, coded_folder) },
}

/// One caller of a shared folder: its number, and how much of the history it has seen.
#[derive(Drop)]
pub struct Pass<C: FolderCore + Drop> {
    pub(crate) number: u64,
    pub(crate) seen: u64,
    pub(crate) token: Token<C>,
}

/// No pass is left: 2^32 were given out. Its token says so of the folder that the call put back.
#[derive(Drop)]
pub struct PassesFull<C: FolderCore + Drop> {
    pub(crate) token: Token<C>,
}

/// How many passes of a folder were given out when it was closed. Its token says so of the folder that the call took.
#[derive(Drop)]
pub struct PassCount<C: FolderCore + Drop> {
    pub(crate) count: u64,
    pub(crate) token: Token<C>,
}
