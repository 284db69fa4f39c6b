//! Which plans may still be of a pull that put something in place.
ghost use Rattle.std.specs.Prelude.{◌≡◌, ◌++◌, ◌∷◌, ◌&&◌, [], true, IfOk, OnOk, cond, not};
ghost use Rattle.std.specs.BTreeSet.{Updates, contains};
ghost use Rattle.node_replay.specs.Settled.{is_open};
ghost use Rattle.node_replay.specs.Open.{open_plans};
ghost use Rattle.sync_record.specs.Devices.{bytes_cmp};

use crate::plan::PullPlan;
use crate::settling::is_open;
use bep_messages::Items;
use folder_core::FolderCore;
use std::alloc::{AllocError, Global};
use std::collections::BTreeSet;
use sync_names::SafeName;

/// Of the plans the last one of each name, if its base is still the local version, in their order: the others changed nothing, or are
/// what this device has by now. Returns `Err` only if out of memory. O(p log n) for p plans and n names of the folder and the plans.
pub fn open_plans<F: FolderCore>(
    alloc: Global,
    folder: &F,
    plans: Items<PullPlan>,
) -> Result<Items<PullPlan>, AllocError>
    ensures { IfOk result (λ left. left ≡ open_plans (F.state folder.now) plans) }
{
    let (mut names, mut left) = (BTreeSet::new(alloc), Vec::new(alloc));
    let mut plans = plans.into_vec();
    // (from the last one on, so that the first one that comes of a name is its last)
    plans.reverse();
    for plan in plans {
        add(folder, plan, &mut names, &mut left)?;
    }
    left.reverse();
    Ok(Items::from_vec(left))
}

// Adds a plan, if none of its name came before and it is open.
fn add<F: FolderCore>(
    folder: &F,
    plan: PullPlan,
    names: &mut BTreeSet<SafeName>,
    left: &mut Vec<PullPlan>,
) -> Result<(), AllocError>
    ensures names { OnOk result (Updates bytes_cmp names.old names.new plan.target.name true) }
    ensures left { OnOk result (left.new.items ≡ left.old.items
        ++ cond (not (contains bytes_cmp names.old plan.target.name) && is_open (F.state folder.now) plan) (plan ∷ []) []) }
{
    let is_new = names.insert(plan.target.name().copy()?)?;
    if is_new && is_open(folder, &plan)? {
        left.push(plan)?;
    }
    Ok(())
}
