//! The plans of pulls that the last run left, and what becomes of them.
ghost use Rattle.std.specs.Prelude.{◌≡◌, ◌++◌, cond, flat_map, map, option_copied, IfOk, OnOk};
ghost use Rattle.std.specs.List.{AllZip, list_all};
ghost use Rattle.node_replay.specs.Told.{is_pullable, plan_of};
ghost use Rattle.bepd_run.specs.Plans.{AreSettled, IsSettledBy, IsSettledFolder, folder_under, open_in, plans_under, stored_under, without_id};

use crate::failure::RunFailure;
use crate::last_run::FolderPlans;
use crate::starts::Core;
use bep_messages::{Items, Text};
use file_store::{FileStore, OpenGate};
use folder_core::FolderCore;
use node_context::NodeFault;
use node_files::{Ends, FolderStore, Marked, Stores, Whereabouts};
use node_journal::Plan;
use node_replay::{Disk, PullPlan, SettleFault, open_plans, plan_message, settle};
use node_state::{Problem, State, StateFault, StoredFolder};
use node_threads::StartFolder;
use std::alloc::{AllocError, Global};
use sync_names::SafeName;
use sync_pull::{room_for, stands_as};
use sync_record::{Kind, Record};

/// Settles the plans of each folder that is there: where a pull of the last run put its target in place, that is what this device has. The plans of a folder
/// that is away stay, and it is looked at once it is back.
pub(crate) fn settle_all<T: Stores>(
    alloc: Global,
    stores: &T,
    folders: Vec<StartFolder<Core>>,
    plans: &mut Vec<FolderPlans>,
) -> Result<Vec<StartFolder<Core>>, RunFailure>
    ensures { IfOk result (λ settled. AllZip IsSettledFolder folders.items settled.items) }
{
    let mut settled = Vec::with_capacity(alloc, folders.len())?;
    for folder in folders {
        settled.push(settle_folder(alloc, stores, folder, plans)?)?;
    }
    Ok(settled)
}

// Settles the plans of a folder, if it is there. Then it has none any more.
fn settle_folder<T: Stores>(
    alloc: Global,
    stores: &T,
    folder: StartFolder<Core>,
    plans: &mut Vec<FolderPlans>,
) -> Result<StartFolder<Core>, RunFailure>
    ensures settled { IfOk result (λ left. IsSettledBy (plans_under plans.old.items folder.settings.id) folder left) }
    ensures plans { IfOk result (λ left. plans.new.items
        ≡ cond left.is_unsettled plans.old.items (without_id folder.settings.id plans.old.items)) }
{
    let StartFolder {
        settings,
        core,
        kept,
        is_doubted,
        ..
    } = folder;
    let under = plans_under(plans.as_slice(), &settings.id);
    let Settled { core, is_unsettled } = settle_at(
        alloc,
        stores,
        settings.path.as_str(),
        core,
        under,
    )?;
    if !is_unsettled {
        leave_out(&settings.id, plans);
    }
    Ok(StartFolder {
        settings,
        core,
        kept,
        is_unsettled,
        is_doubted,
    })
}

// The plans of the first folder with this id.
fn plans_under<'a>(plans: &'a [FolderPlans], id: &Text) -> &'a [PullPlan]
    ensures { result.now ≡ plans_under plans.now id.now }
{
    match folder_under(plans, id) {
        Some(folder) => folder.plans.as_slice(),
        None => &[],
    }
}

// The first folder with this id.
fn folder_under<'a>(plans: &'a [FolderPlans], id: &Text) -> Option<&'a FolderPlans>
    ensures { option_copied result ≡ folder_under plans.now id.now }
{
    plans.iter().find(|it| it.id.as_str() == id.as_str())
}

// Leaves out the folders with this id.
fn leave_out(id: &Text, plans: &mut Vec<FolderPlans>)
    ensures { plans.new.items ≡ without_id id.now plans.old.items }
{
    plans.retain(|it| it.id.as_str() != id.as_str());
}

// Whether a pull can put in place what the record says.
fn is_pullable(target: &Record) -> bool
    ensures { result ≡ is_pullable target.now }
{
    target.is_valid() && (target.is_deleted() || target.kind() != Kind::Other)
}

// Whether a pull can put in place what each of these plans says.
fn are_pullable(plans: &[PullPlan]) -> bool
    ensures { result ≡ list_all (λ plan. is_pullable plan.target) plans.now }
{
    plans.iter().all(|plan| is_pullable(&plan.target))
}

// A folder whose plans were settled, unless it was away.
#[derive(Drop)]
struct Settled {
    core: Core,
    is_unsettled: bool,
}

// Settles plans of the folder at this path, if it is there.
fn settle_at<T: Stores>(
    alloc: Global,
    stores: &T,
    path: &str,
    core: Core,
    plans: &[PullPlan],
) -> Result<Settled, RunFailure>
    ensures { IfOk result (λ left. AreSettled plans.now core.folder left.core.folder left.is_unsettled) }
{
    let mut disk = FolderDisk {
        alloc,
        store: FolderStore::new(alloc, NeverEnds, stores, path),
        has_failed: false,
    };
    if disk.store.look() != Whereabouts::There {
        return Ok(Settled {
            core,
            is_unsettled: true,
        });
    }
    // (a start has refused a journal with other plans, and a folder begins without pulls)
    if core.counts().pulls != 0 || !are_pullable(plans) {
        return Err(RunFailure::from(NodeFault::OpenPulls));
    }
    let core = settle(alloc, core, plans, &mut disk)?;
    let is_unsettled = disk.has_failed && disk.store.look() != Whereabouts::There;
    Ok(Settled { core, is_unsettled })
}

// A folder on the disk.
#[derive(Drop)]
struct FolderDisk<S> {
    alloc: Global,
    store: S,
    // Whether it could not be told of a record whether it stands.
    has_failed: bool,
}

impl<S: FileStore> Disk for FolderDisk<S> {
    ghost use Rattle.std.specs.Prelude.{◌≡◌, Some, true};
    ghost use Rattle.sync_pull.specs.Moments.{SaysStands};

    ghost tells = { λ old target stands new. stands ≡ true → SaysStands S.gives target.name (Some target) old.store new.store };

    fn has(&mut self, target: &Record) -> bool {
        let Ok(mut room) = room_for(self.alloc, Some(target)) else {
            self.has_failed = true;
            return false;
        };
        let buffer = room.as_mut_slice();
        match stands_as(
            &mut self.store,
            &OpenGate,
            target.name(),
            Some(target),
            buffer,
        ) {
            Ok(stands) => stands,
            Err(_) => {
                self.has_failed = true;
                false
            }
        }
    }
}

// Nobody says that a call is to give up.
#[derive(Drop)]
struct NeverEnds;

impl Ends for NeverEnds {
    ghost may_end = { λ _. ⊥ };

    ghost may_hold = { λ _. ⊥ };

    fn is_over(&self) -> bool {
        false
    }

    fn is_ready(&self, _name: &SafeName) -> bool {
        true
    }
}

/// Those of the plans that may still be of a pull that put something in place, of the folders that the state has. Returns `Err` only if out of memory.
pub(crate) fn open_in(
    alloc: Global,
    state: &State,
    plans: Vec<FolderPlans>,
) -> Result<Vec<FolderPlans>, AllocError>
    ensures { IfOk result (λ left. left.items ≡ flat_map (open_in state.now) plans.items) }
{
    let mut left = Vec::new(alloc);
    for folder in plans {
        add_open(alloc, state, folder, &mut left)?;
    }
    Ok(left)
}

// Adds those of a folder, if there are any.
fn add_open(
    alloc: Global,
    state: &State,
    folder: FolderPlans,
    left: &mut Vec<FolderPlans>,
) -> Result<(), AllocError>
    ensures { OnOk result (left.new.items ≡ left.old.items ++ open_in state.now folder) }
{
    let FolderPlans {
        id,
        index_id,
        plans,
    } = folder;
    let Some(stored) = stored_under(state, &id) else {
        return Ok(());
    };
    let plans = open_plans(alloc, &stored.folder, plans)?;
    if !plans.as_slice().is_empty() {
        left.push(FolderPlans {
            id,
            index_id,
            plans,
        })?;
    }
    Ok(())
}

// The first folder of the state with this id.
fn stored_under<'a>(state: &'a State, id: &Text) -> Option<&'a StoredFolder>
    ensures { option_copied result ≡ stored_under state.now id.now }
{
    let folders = state.folders.as_slice();
    folders
        .iter()
        .find(|folder| folder.id.as_str() == id.as_str())
}

/// The plans, as a frame has them.
pub(crate) fn written_plans(
    alloc: Global,
    plans: &Items<PullPlan>,
) -> Result<Items<Plan>, AllocError>
    ensures { IfOk result (λ written. map plan_of written ≡ plans.now) }
{
    let mut written = Items::new(alloc);
    for plan in plans.as_slice() {
        written.push(plan_message(alloc, plan)?)?;
    }
    Ok(written)
}

impl From<SettleFault> for RunFailure {
    fn from(fault: SettleFault) -> RunFailure {
        match fault {
            SettleFault::OutOfMemory => RunFailure::OutOfMemory,
            SettleFault::SequenceFull => RunFailure::State(StateFault::BadState(Problem::Records)),
        }
    }
}
