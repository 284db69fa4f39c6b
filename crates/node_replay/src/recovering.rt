//! The folders that a run takes over.
ghost use Rattle.std.specs.Prelude.{◌≡◌, ◌≢◌, map, IfErr, IfOk, option_copied};
ghost use Rattle.std.specs.List.{AllByRecursion};
ghost use Rattle.folder_core.specs.States.{IsFolder};
ghost use Rattle.node_replay.specs.Clear.{IsClear, IsClearFrom, IsNoFolder};
ghost use Rattle.node_replay.specs.Recovered.{IsRecovered, IsRecoveredFolder, IsRecoveredFrom, IsRecovery, folder_stored, ids_of, number_stored, peers_stored};
ghost use Rattle.node_replay.specs.Told.{lasts_told};
ghost use Rattle.node_replay.specs.declared.fault.RecoverFault.{RecoverFault as Fault};
ghost use Rattle.node_replay.specs.declared.fault.RecoverFault.TheVariants.{OutOfMemory};

use crate::fault::RecoverFault;
use crate::finding::{folder_ids, parts_of, stored_of};
use crate::laying::laid_over;
use crate::plan::PullPlan;
use crate::told::{Told, last_after, number_after, told_by};
use bep_messages::{Copied, Items, Text};
use folder_core::{FolderCore, PlainFolder, RestoreFault};
use node_journal::{Frame, Part};
use node_state::{KeptIndexes, State, StoredFolder};
use std::alloc::{AllocError, Global};
use sync_record::{DeviceId, Record};

/// A folder as it is taken over.
#[derive(Drop)]
pub struct RecoveredFolder {
    /// Its id, its index id, its records, and the index ids of peers.
    pub stored: StoredFolder,
    /// The pulls whose targets may have been put in place, in the order in which they began.
    pub plans: Items<PullPlan>,
}

/// What this device takes over from the state and the frames of the journal behind it: the state's folders in their order, and then
/// those that only the journal has, as they first come.
///
/// Of each name the latest record that the frames tell counts, or else the state's; records of other devices and the numbers of
/// their indexes are the state's. The last sequence is the greatest that is told, the index id the last one.
///
/// Fails where the name of a record or of a target is refused, a plan's target can't be pulled, a folder has no index id, or no
/// folder at all has what is told; which of them is told, where there are several, is not promised. Fails with `OutOfMemory` only if
/// out of memory, and never where there is no folder. The state stays as it is, and its records are shared; the journal's are
/// copied. O(f (s + p) + (n + m) log (n + m)) for f folders, s stored ones, p parts, n records of the state and m of the journal.
pub fn recover(
    alloc: Global,
    me: DeviceId,
    state: &State,
    frames: &[Frame],
) -> Result<Items<RecoveredFolder>, RecoverFault>
    ensures recovered { IfOk result (IsRecovery me state.now frames.now) }
    ensures clear { IfOk result (λ _. (e : Fault) → e ≢ OutOfMemory →
        AllByRecursion (IsClear e me state.now frames.now) (ids_of state.now frames.now)) }
    ensures err { IfErr result (λ e. ¬ (AllByRecursion (IsClear e me state.now frames.now)
        (ids_of state.now frames.now))) }
{
    let mut folders = Items::new(alloc);
    let ids = folder_ids(alloc, state, frames)?;
    for id in &ids {
        let folder = recovered_folder(alloc, me, state, frames, id)?;
        folders.push(folder)?;
    }
    Ok(folders)
}

// The folder of this id.
fn recovered_folder(
    alloc: Global,
    me: DeviceId,
    state: &State,
    frames: &[Frame],
    id: &Text,
) -> Result<RecoveredFolder, RecoverFault>
    ensures id { IfOk result (λ r. r.stored.id ≡ id.now) }
    ensures is { IfOk result (IsRecoveredFolder me state.now frames.now) }
    ensures clear { IfOk result (λ _. (e : Fault) → e ≢ OutOfMemory → IsClear e me state.now frames.now id.now) }
    ensures err { IfErr result (λ e. ¬ (IsClear e me state.now frames.now id.now)) }
{
    let folders = state.folders.as_slice();
    let stored = stored_of(folders, id);
    let parts = parts_of(alloc, frames, id)?;
    let told = parts.as_slice();
    recovered_from(alloc, me, stored, told, id)
}

// The folder of this id, of which this is stored and these parts tell.
fn recovered_from(
    alloc: Global,
    me: DeviceId,
    stored: Option<&StoredFolder>,
    parts: &[&Part],
    id: &Text,
) -> Result<RecoveredFolder, RecoverFault>
    ensures id { IfOk result (λ r. r.stored.id ≡ id.now) }
    ensures is { IfOk result (IsRecoveredFrom me (option_copied stored.entry) (map (λ p. p.now) parts.now)) }
    ensures clear { IfOk result (λ _. (e : Fault) → e ≢ OutOfMemory →
        IsClearFrom e me (option_copied stored.entry) (map (λ p. p.now) parts.now)) }
    ensures err { IfErr result (λ e. ¬ (IsClearFrom e me (option_copied stored.entry) (map (λ p. p.now) parts.now))) }
{
    let index_id = number_after(number_stored(stored), parts);
    if index_id == 0 {
        return Err(RecoverFault::NoIndexId);
    }
    let told = told_by(alloc, parts)?;
    let Told { records, plans } = told;
    let folder = told_over(alloc, me, stored, records, parts)?;
    let peers = peers_stored(alloc, stored)?;
    let stored = StoredFolder {
        id: id.copy()?,
        index_id,
        folder,
        peers,
    };
    Ok(RecoveredFolder {
        stored,
        plans: Items::from_vec(plans),
    })
}

// The index id that is stored, or 0.
fn number_stored(stored: Option<&StoredFolder>) -> u64
    ensures { result ≡ number_stored (option_copied stored.entry) }
{
    match stored {
        None => 0,
        Some(stored) => stored.index_id,
    }
}

// The index ids that are stored of peers.
fn peers_stored(alloc: Global, stored: Option<&StoredFolder>) -> Result<KeptIndexes, AllocError>
    ensures { IfOk result (λ peers. peers ≡ peers_stored (option_copied stored.entry)) }
{
    match stored {
        None => Ok(KeptIndexes::new(alloc)),
        Some(stored) => copied(alloc, &stored.peers),
    }
}

// The same index ids once more.
fn copied(alloc: Global, peers: &KeptIndexes) -> Result<KeptIndexes, AllocError>
    ensures { IfOk result (λ copy. copy ≡ peers.now) }
{
    let mut copy = KeptIndexes::new(alloc);
    for kept in peers.as_slice() {
        copy.insert(kept.device, kept.index_id)?;
    }
    Ok(copy)
}

// The folder that is stored, or an empty one, with what these parts tell of its own records, which are these, and of its last sequence.
fn told_over(
    alloc: Global,
    me: DeviceId,
    stored: Option<&StoredFolder>,
    told: Vec<Record>,
    parts: &[&Part],
) -> Result<PlainFolder, RecoverFault>
    ensures is { IfOk result (IsRecovered told.items (lasts_told (map (λ p. p.now) parts.now))
        (folder_stored me (option_copied stored.entry))) }
    ensures folder { IfOk result IsFolder }
    ensures err { IfErr result (IsNoFolder told.items (lasts_told (map (λ p. p.now) parts.now))
        (folder_stored me (option_copied stored.entry))) }
{
    match stored {
        None => with_told(alloc, &PlainFolder::new(alloc, me), told, parts),
        Some(stored) => with_told(alloc, &stored.folder, told, parts),
    }
}

// The folder with what these parts tell of its own records, which are these, and of its last sequence.
fn with_told(
    alloc: Global,
    folder: &PlainFolder,
    told: Vec<Record>,
    parts: &[&Part],
) -> Result<PlainFolder, RecoverFault>
    ensures is { IfOk result (IsRecovered told.items (lasts_told (map (λ p. p.now) parts.now)) folder.now) }
    ensures folder { IfOk result IsFolder }
    ensures err { IfErr result (IsNoFolder told.items (lasts_told (map (λ p. p.now) parts.now)) folder.now) }
{
    let me = folder.me();
    let last = last_after(folder.known(me), parts);
    let records = laid_over(alloc, me, folder.records(), told)?;
    match PlainFolder::restore(alloc, me, Items::from_vec(records), last as i64) {
        Ok(folder) => Ok(folder),
        Err(RestoreFault::BadRecords) => Err(RecoverFault::BadRecords),
        Err(RestoreFault::OutOfMemory) => Err(RecoverFault::OutOfMemory),
    }
}
