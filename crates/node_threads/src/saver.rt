//! When what happened in a node's folders is written to its journal.
use bep_messages::{Items, Text};
use folder_calls::FolderCalls;
use index_sender::IndexSender;
use node_context::{Context, Event, Host};
use node_folder::NodeFolder;
use node_journal::Plan;
use node_keeper::{Keeper, PlannedPull};
use node_saver::{
    DiskJournal, FrameJournal, SaveFault, SavedFolder, plan_over, plans_frame, save_records,
};
use std::alloc::{AllocError, Global};
use std::sync::Wait;
use std::time::Duration;

/// How many seconds lie between two looks at what changed, where nobody asks.
const SAVE_SECONDS: u64 = 1;

/// The most seconds that lie between two tries where the journal can't be written. Each is followed by twice the time, up to this one.
const MAX_RETRY_SECONDS: u64 = 30;

/// Who writes what happened in the folders to a journal, before peers are told of it, and before pulls put something in place.
#[derive(Drop)]
pub(crate) struct Saver<'j, J> {
    pub(crate) folders: Vec<Saved>,
    pub(crate) journal: &'j mut J,
}

/// How far a folder is saved.
#[derive(Drop)]
pub(crate) struct Saved {
    folder: SavedFolder,
    // The sequence up to which its local records are on the disk, and that up to which they are once what was appended is.
    kept: u64,
    next: u64,
    // The plans that are on the disk then.
    batch: u64,
}

impl Saved {
    // Appends the records that are not on the disk. Returns whether there were any.
    fn save<W: FolderCalls, J: FrameJournal>(
        &mut self,
        alloc: Global,
        calls: &mut W,
        journal: &mut J,
    ) -> Result<bool, SaveFault> {
        self.next = self.kept;
        let me = calls.me();
        if calls.known(me).value <= self.kept {
            return Ok(false);
        }
        let start = i64::try_from(self.kept).unwrap_or(i64::MAX);
        let mut sender = IndexSender::new(Some(start));
        save_records(alloc, &self.folder, &mut sender, calls, journal)?;
        self.next = sender.cursor();
        Ok(self.next > self.kept)
    }
}

/// How far each of the folders is saved at first.
pub(crate) fn saved_first<R: Wait>(
    rt: &R,
    alloc: Global,
    keeper: &Keeper,
    folders: &[NodeFolder],
) -> Result<Vec<Saved>, AllocError> {
    let mut saved = Vec::with_capacity(alloc, folders.len())?;
    for (place, folder) in folders.iter().enumerate() {
        saved.push(Saved {
            folder: SavedFolder {
                id: Text::from_str(alloc, folder.id())?,
                index_id: folder.settings.index_id,
            },
            kept: keeper.kept_up_to(rt, place),
            next: 0,
            batch: 0,
        })?;
    }
    Ok(saved)
}

/// Writes what happened in the folders to the journal, soon after somebody asks for it, and else within a second, until nobody asks any more: then once
/// more. Where the journal can't be written that is told, and tried again. Where the state is an older one than a peer was told of, or is gone and may be written
/// anew, the node stops.
pub(crate) fn run_saver<R, G, W, J>(
    cx: &Context<R, G>,
    keeper: &Keeper,
    saver: &mut Saver<J>,
    callers: &mut [W],
)
where
    R: Host,
    W: FolderCalls,
    J: DiskJournal,
{
    let mut retry = 0u64;
    for _ in cx.rt.forever() {
        let is_over = if retry == 0 {
            keeper.wait_for_asks(cx.rt, Duration::from_secs(SAVE_SECONDS))
        } else {
            keeper.wait_for_end(cx.rt, Duration::from_secs(retry))
        };
        match save(cx, keeper, saver, callers) {
            Ok(()) => {
                if retry != 0 {
                    cx.tell(&Event::KeptAgain);
                }
                retry = 0;
            }
            Err(_) => {
                saver.journal.take_back();
                keeper.fail(cx.rt);
                if retry == 0 {
                    cx.tell(&Event::NotKept(saver.journal.trouble()));
                }
                retry = retry.saturating_mul(2).max(1).min(MAX_RETRY_SECONDS);
            }
        }
        if is_over {
            return;
        }
        if keeper.is_behind(cx.rt) && !cx.is_stopping() {
            cx.tell(&Event::OlderState);
            cx.stop();
        }
        if saver.journal.is_gone() && !cx.is_stopping() {
            cx.tell(&Event::NotKept(saver.journal.trouble()));
            cx.stop();
        }
        saver.journal.fold();
    }
}

// Writes what is not on the disk: first the plans, and then the records that there are by now, so that what a pull began over is on the disk with its plan.
fn save<R, G, W, J>(
    cx: &Context<R, G>,
    keeper: &Keeper,
    saver: &mut Saver<J>,
    callers: &mut [W],
) -> Result<(), SaveFault>
where
    R: Host,
    W: FolderCalls,
    J: DiskJournal,
{
    let Saver { folders, journal } = saver;
    let mut is_new = false;
    for (place, saved) in folders.iter_mut().enumerate() {
        let unsaved = keeper.unsaved(cx.rt, cx.alloc, place)?;
        saved.batch = unsaved.batch;
        if !unsaved.plans.is_empty() {
            let plans = plans_of(cx.alloc, unsaved.plans.as_slice())?;
            journal.append(&plans_frame(cx.alloc, &saved.folder, plans)?)?;
            is_new = true;
        }
    }
    for place in 0..callers.len() {
        let (Some(saved), Some(calls)) = (folders.get_mut(place), callers.get_mut(place)) else {
            break;
        };
        if saved.save(cx.alloc, calls, *journal)? {
            is_new = true;
        }
    }
    if !is_new {
        return Ok(());
    }
    journal.sync()?;
    for (place, saved) in folders.iter_mut().enumerate() {
        saved.kept = saved.next;
        keeper.save(cx.rt, place, saved.batch, saved.kept);
    }
    Ok(())
}

// The plans, as a frame has them.
fn plans_of(alloc: Global, planned: &[PlannedPull]) -> Result<Items<Plan>, AllocError> {
    let mut plans = Items::new(alloc);
    for pull in planned {
        plans.push(plan_over(alloc, pull.base.as_ref(), &pull.target)?)?;
    }
    Ok(plans)
}
