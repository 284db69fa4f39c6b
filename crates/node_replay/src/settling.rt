//! What becomes of pulls that may have ended just before.
ghost use Rattle.std.specs.Prelude.{◌≡◌, ◌≤◌, ◌<◌, ◌^◌, [], ⊤, All, Bool, true, false, IfErr, IfOk, IsOk, IsTrue, OnOk, OnErr, option_copied, map};
ghost use Rattle.std.specs.FinMap.{empty};
ghost use Rattle.folder_core.specs.PlainReads.{version_of};
ghost use Rattle.folder_core.specs.States.{IsFolder, max_sequence, same_local_version};
ghost use Rattle.folder_core.specs.Steps.{committed_record};
ghost use Rattle.node_replay.specs.Settled.{IsFull, IsSettled, IsTold, advanced, is_open, settled};
ghost use Rattle.node_replay.specs.Told.{is_pullable};
ghost use Rattle.node_replay.specs.declared.fault.SettleFault.TheVariants.{OutOfMemory, SequenceFull};

use crate::fault::SettleFault;
use crate::finished::Finished;
use crate::laying::laid_over;
use crate::plan::PullPlan;
use bep_messages::Items;
use folder_core::{FolderCore, RestoreFault};
use folder_db::IndexedFolder;
use std::alloc::{AllocError, Global};
use sync_record::{DeviceId, Record};
use sync_version::Version;

/// The greatest sequence.
const MAX_SEQUENCE: u64 = 0x7fff_ffff_ffff_ffff;

/// Who knows what stands on the disk.
pub trait Disk {
    ghost use Rattle.std.specs.Prelude.{Bool};
    ghost use Rattle.sync_record.specs.Records.{FileRecord};

    /// What is told of a record: the disk before, the record, whether what it says stands there, and the disk after.
    ghost tells: { Self → FileRecord → Bool → Self → Type 0 };

    /// Whether what the record says stands on the disk.
    fn has(&mut self, target: &Record) -> bool
        ensures { tells self.old target.now result self.new };
}

/// Whether the plan's base is still the local version. Returns `Err` only if out of memory. The cost is that of a look-up.
pub fn is_open<F: FolderCore>(folder: &F, plan: &PullPlan) -> Result<bool, AllocError>
    ensures { IfOk result (λ b. b ≡ is_open (F.state folder.now) plan.now) }
{
    let local = folder.local(plan.target.name())?;
    Ok(is_base(local.as_ref(), plan))
}

// Whether the record is of the version over which the pull began.
fn is_base(local: Option<&Record>, plan: &PullPlan) -> bool
    ensures { result ≡ same_local_version (version_of (option_copied local.entry)) plan.now.base }
{
    let version = match local {
        Some(local) => Some(local.version()),
        None => None,
    };
    version == plan.base.as_ref()
}

/// The folder after these plans, one after another: where a plan is open and its target stands on the disk, the target is the local
/// record, with what the base had seen, under the next sequence. The disk is asked once for each plan that is open at its turn. Where
/// none stands, the folder comes back as it is.
///
/// Fails with `SequenceFull` where the last sequence would pass the greatest, and else only if out of memory; without a plan it doesn't
/// fail. O(p log n) for p plans and n names; where one stands, O(n log n + b log b) besides, for b blocks of this device's files.
pub fn settle<D: Disk>(
    alloc: Global,
    folder: IndexedFolder,
    plans: &[PullPlan],
    disk: &mut D,
) -> Result<IndexedFolder, SettleFault>
    requires closed { folder.folder.pulls ≡ empty }
    requires pullable { All (λ p. IsTrue (is_pullable p.target)) plans.now }
    ensures settled { IfOk result (λ t. IsSettled D.tells folder.folder disk.old plans.now t.folder disk.new) }
    ensures same { IfOk result (λ t. t.folder.last ≡ folder.folder.last → t ≡ folder) }
    ensures none { plans.now ≡ [] → IsOk result }
    ensures full { IfErr result (λ e. e ≡ SequenceFull → IsFull D.tells folder.folder disk.old plans.now disk.new) }
{
    let me = folder.me();
    let mut finished = Finished::new(alloc);
    for plan in plans {
        take_turn(alloc, &folder, &mut finished, plan, disk)?;
    }
    with_finished(alloc, me, folder, finished.into_records())
}

// Settles a plan, where the folder has these finished records over its own: adds its record, if it is open and stands.
fn take_turn<D: Disk>(
    alloc: Global,
    folder: &IndexedFolder,
    finished: &mut Finished,
    plan: &PullPlan,
    disk: &mut D,
) -> Result<(), SettleFault>
    requires room { (advanced folder.now.folder finished.old).last ≤ max_sequence }
    ensures settled { OnOk result ((stands : Bool) ×
        IsTold D.tells (is_open (advanced folder.now.folder finished.old) plan.now) (plan.now, stands) disk.old disk.new
        × (advanced folder.now.folder finished.new
        ≡ settled (advanced folder.now.folder finished.old) (plan.now, stands))) }
    ensures room { OnOk result ((advanced folder.now.folder finished.new).last ≤ max_sequence) }
    ensures full { IfErr result (λ e. e ≡ SequenceFull →
        ((advanced folder.now.folder finished.old).last ≡ max_sequence)
        × (is_open (advanced folder.now.folder finished.old) plan.now ≡ true)
        × D.tells disk.old plan.now.target true disk.new) }
{
    let is_open = is_open_over(folder, finished, plan)?;
    if !is_open {
        return Ok(());
    }
    let stands = disk.has(&plan.target);
    if !stands {
        return Ok(());
    }
    let last = folder.known(folder.me()) + finished.len() as u64;
    if last == MAX_SEQUENCE {
        return Err(SettleFault::SequenceFull);
    }
    let target = committed(alloc, plan)?;
    let own = target.with_sequence(last + 1);
    finished.push(own)?;
    Ok(())
}

// Whether the plan is open where the folder has these finished records over its own.
fn is_open_over(
    folder: &IndexedFolder,
    finished: &Finished,
    plan: &PullPlan,
) -> Result<bool, AllocError>
    ensures { IfOk result (λ b. b ≡ is_open (advanced folder.now.folder finished.now) plan.now) }
{
    match finished.last_of(plan.target.name()) {
        Some(latest) => Ok(is_base(Some(latest), plan)),
        None => is_open(folder, plan),
    }
}

// What is announced once the plan's target is in the place of its base; its sequence is the target's.
fn committed(alloc: Global, plan: &PullPlan) -> Result<Record, AllocError>
    ensures { IfOk result (λ r. r ≡ committed_record plan.now.base plan.now.target) }
{
    let version = match &plan.base {
        Some(base) => base.merge(plan.target.version())?,
        None => Version::new(alloc).merge(plan.target.version())?,
    };
    plan.target.with_version(version)
}

// The folder of this device with these finished records over its own.
fn with_finished(
    alloc: Global,
    me: DeviceId,
    folder: IndexedFolder,
    finished: Vec<Record>,
) -> Result<IndexedFolder, SettleFault>
    requires own { me ≡ folder.folder.me }
    requires closed { folder.folder.pulls ≡ empty }
    requires folder { IsFolder (advanced folder.folder finished.items) }
    ensures is { IfOk result (λ t. t.folder ≡ advanced folder.folder finished.items) }
    ensures same { finished.items ≡ [] → IfOk result (λ t. t ≡ folder) }
    ensures none { finished.items ≡ [] → IsOk result }
    ensures memory { IfErr result (λ e. e ≡ OutOfMemory) }
{
    if finished.is_empty() {
        return Ok(folder);
    }
    let last = folder.known(me) + finished.len() as u64;
    let plain = folder.plain_copy()?;
    let records = laid_over(alloc, me, plain.records(), finished)?;
    match IndexedFolder::restore(alloc, me, Items::from_vec(records), last as i64) {
        Ok(folder) => Ok(folder),
        Err(RestoreFault::OutOfMemory) => Err(SettleFault::OutOfMemory),
        Err(RestoreFault::BadRecords) => unreachable!(),
    }
}
