//! The folders that a run takes over from the state.
ghost use Rattle.std.specs.Prelude.{◌≡◌, filter, map, IfOk, option_copied};
ghost use Rattle.folder_core.specs.PlainRestores.{given};
ghost use Rattle.folder_core.specs.Restores.{MayRestore, restored_folder};
ghost use Rattle.node_resume.specs.Resumed.{is_kept, resumed_all, resumed_from, shared_records, taken};

use crate::finding::{is_kept, stored_of};
use bep_messages::{Copied, Items};
use folder_core::{Announcement, FolderCore, PlainFolder, RestoreFault};
use folder_db::IndexedFolder;
use node_config::Config;
use node_state::{State, StoredFolder};
use std::alloc::{AllocError, Global};
use sync_record::DeviceId;

/// A folder as a run begins with it.
#[derive(Drop)]
pub struct ResumedFolder {
    /// The number of this device's index of the folder.
    pub index_id: u64,
    /// Its records, without open pulls.
    pub records: IndexedFolder,
}

/// Each folder of the configuration, in its order. Of the first stored folder of its id it has the index id and the records,
/// except those of devices that it isn't shared with. Where none is stored, it has the new index id and no records. Where
/// something may be missing that peers were told (`is_left`), all have the new index id, so that no peer leaves out a change
/// that it was told and this device forgot.
///
/// Returns `Err` only if out of memory. The state stays as it is; the records share its memory. O(f s + n (p + log n + b log b))
/// for f folders, s stored ones, n records with b blocks each, and p places of peers.
pub fn resume_all(
    alloc: Global,
    config: &Config,
    state: &State,
    new_index_id: u64,
    is_left: bool,
) -> Result<Vec<ResumedFolder>, AllocError>
    ensures { IfOk result (λ folders. map taken folders.items
        ≡ resumed_all config.now state.now new_index_id is_left) }
{
    let folders = config.folders.as_slice();
    let mut resumed = Vec::with_capacity(alloc, folders.len())?;
    for (place, folder) in folders.iter().enumerate() {
        let stored = stored_of(state.folders.as_slice(), folder.id.as_str());
        resumed.push(resume(alloc, config, place, stored, new_index_id, is_left)?)?;
    }
    Ok(resumed)
}

// The folder at this place of the configuration, from what is stored of it.
fn resume(
    alloc: Global,
    config: &Config,
    place: usize,
    stored: Option<&StoredFolder>,
    new_index_id: u64,
    is_left: bool,
) -> Result<ResumedFolder, AllocError>
    ensures { IfOk result (λ folder. taken folder
        ≡ resumed_from config.now new_index_id is_left place (option_copied stored.entry)) }
{
    match stored {
        None => Ok(ResumedFolder {
            index_id: new_index_id,
            records: IndexedFolder::new(alloc, config.device),
        }),
        Some(stored) => Ok(ResumedFolder {
            index_id: if is_left {
                new_index_id
            } else {
                stored.index_id
            },
            records: shared_records(alloc, config, place, &stored.folder)?,
        }),
    }
}

// The folder at this place, in an index, without records of devices that it isn't shared with, and without open pulls.
fn shared_records(
    alloc: Global,
    config: &Config,
    place: usize,
    folder: &PlainFolder,
) -> Result<IndexedFolder, AllocError>
    ensures { IfOk result (λ index. index.folder ≡ shared_records config.now place folder.now) }
{
    let me = folder.me();
    let kept = kept_records(alloc, config, place, me, folder.records())?;
    restored(alloc, me, Items::from_vec(kept), folder.known(me) as i64)
}

// Those of the announcements that stay in the folder at this place. The records are not copied but shared.
fn kept_records(
    alloc: Global,
    config: &Config,
    place: usize,
    me: DeviceId,
    announcements: &[Announcement],
) -> Result<Vec<Announcement>, AllocError>
    ensures { IfOk result (λ kept. kept.items
        ≡ filter (λ a. is_kept config.now place me a.device) announcements.now) }
{
    let mut kept = Vec::with_capacity(alloc, announcements.len())?;
    for announcement in announcements {
        let device = announcement.device;
        if is_kept(config, place, me, device) {
            kept.push(Announcement {
                device,
                record: announcement.record.copy()?,
            })?;
        }
    }
    Ok(kept)
}

// The folder that has these records, where there is one.
fn restored(
    alloc: Global,
    me: DeviceId,
    records: Items<Announcement>,
    last: i64,
) -> Result<IndexedFolder, AllocError>
    requires { MayRestore me (map given records) last }
    ensures { IfOk result (λ index. index.folder ≡ restored_folder me (map given records) last) }
{
    match IndexedFolder::restore(alloc, me, records, last) {
        Ok(folder) => Ok(folder),
        Err(RestoreFault::OutOfMemory) => Err(AllocError),
        Err(RestoreFault::BadRecords) => unreachable!(),
    }
}
