//! A plan, as a frame has it.
ghost use Rattle.std.specs.Prelude.{◌≡◌, IfOk};
ghost use Rattle.sync_record.specs.Infos.{version_of};
ghost use Rattle.node_replay.specs.Told.{plan_of};

use crate::plan::PullPlan;
use bep_messages::{FileInfo, Items, Vector};
use node_journal::Plan;
use std::alloc::{AllocError, Global};
use sync_record::Record;
use sync_version::Version;

/// The message of a plan: read again it is the same plan. O(n) for n bytes of names, counters and blocks.
pub fn plan_message(alloc: Global, plan: &PullPlan) -> Result<Plan, AllocError>
    ensures { IfOk result (λ message. plan_of message ≡ plan.now) }
{
    let target = plan.target.to_info()?;
    let Some(base) = &plan.base else {
        let counters = Items::new(alloc);
        return Ok(Plan {
            has_base: false,
            base: Vector { counters },
            target,
        });
    };
    let base = message_of(&plan.target, base)?;
    Ok(Plan {
        has_base: true,
        base,
        target,
    })
}

// The message of a version, as it is in that of a record.
fn message_of(any: &Record, version: &Version) -> Result<Vector, AllocError>
    ensures { IfOk result (λ vector. version_of vector.counters ≡ version.now) }
{
    let over = any.with_version(version.copy()?)?;
    let FileInfo { version, .. } = over.to_info()?;
    Ok(version)
}
