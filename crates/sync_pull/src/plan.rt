//! Whether the file that is replaced is kept.
ghost use Rattle.std.specs.Prelude.{◌≡◌, ◌&&◌, IfOk, Some, not, option_copied};
ghost use Rattle.sync_version.specs.Computed.{covers};
ghost use Rattle.folder_core.specs.Steps.{is_copy_due};
ghost use Rattle.sync_pull.specs.Plans.{IsPlanned};
ghost use Rattle.sync_pull.specs.Replacing.{IsOfFile};

use crate::MaxConflicts;
use crate::replace::CopyPlan;
use std::alloc::AllocError;
use sync_names::{NameFault, SafeName, conflict_name};
use sync_record::{Kind, Record, same_content};
use sync_version::{Moment, Relation};

/// Whether a pull keeps a local file as a conflict copy before the target takes its place: copies are kept at all, both are
/// live, the local one is a file, neither version covers the other, and the contents differ. Does not allocate. O(n) for n
/// counters and blocks.
pub fn is_copy_due(max_conflicts: MaxConflicts, base: &Record, target: &Record) -> bool
    ensures { result ≡ is_copy_due max_conflicts (Some base.now) target.now }
{
    if max_conflicts.most() == 0 || target.is_deleted() || base.is_deleted() {
        return false;
    }
    match base.kind() {
        Kind::File => are_concurrent(base, target) && !same_content(base, target),
        Kind::Directory => false,
        Kind::Other => false,
    }
}

// Whether neither of the versions of two records covers the other.
fn are_concurrent(a: &Record, b: &Record) -> bool
    ensures { result ≡ (not (covers a.now.version b.now.version) && not (covers b.now.version a.now.version)) }
{
    match a.version().relation(b.version()) {
        Relation::Concurrent => true,
        Relation::Equal => false,
        Relation::Dominates => false,
        Relation::Dominated => false,
    }
}

// What is to be done with the file that is replaced. Fails only if out of memory.
pub(crate) fn plan_copy(
    name: &SafeName,
    base: Option<&Record>,
    target: &Record,
    moment: Moment,
    max_conflicts: MaxConflicts,
) -> Result<CopyPlan, AllocError>
    ensures planned { IfOk result (λ plan. IsPlanned max_conflicts moment name.now
        (option_copied base.entry) target.now plan) }
    ensures of_file { IfOk result (λ plan. IsOfFile plan (option_copied base.entry)) }
{
    let Some(base) = base else {
        return Ok(CopyPlan::NotDue);
    };
    if !is_copy_due(max_conflicts, base, target) {
        return Ok(CopyPlan::NotDue);
    }
    match conflict_name(name, moment, base.modified_by()) {
        Ok(copy) => Ok(CopyPlan::Due(Some(copy))),
        Err(fault) => match fault {
            NameFault::OutOfMemory => Err(AllocError),
            _ => Ok(CopyPlan::Due(None)),
        },
    }
}
