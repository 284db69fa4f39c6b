//! What the parts of a folder tell.
ghost use Rattle.std.specs.Prelude.{◌≡◌, ◌++◌, ◌<◌, ◌^◌, fold, map, max, IfErr, IfOk, OnOk};
ghost use Rattle.std.specs.List.{AllByRecursion};
ghost use Rattle.sync_record.specs.Infos.{natural, record_of};
ghost use Rattle.node_replay.specs.Clear.{IsClearPart, IsClearPlan, IsClearRecord};
ghost use Rattle.node_replay.specs.Told.{base_of, is_pullable, lasts_told, number_after, plan_of, plans_told, records_told};
ghost use Rattle.node_replay.specs.declared.fault.RecoverFault.TheVariants.{UnsafeName, BadPlan};

use crate::fault::RecoverFault;
use crate::plan::PullPlan;
use bep_messages::{Copied, FileInfo};
use node_journal::{Part, Plan};
use std::alloc::{AllocError, Global};
use sync_names::NameFault;
use sync_record::{Kind, Record};
use sync_version::Version;

/// The records and the plans of a folder's parts, in order.
#[derive(Drop)]
pub(crate) struct Told {
    pub(crate) records: Vec<Record>,
    pub(crate) plans: Vec<PullPlan>,
}

/// What these parts tell. O(n) for n bytes of their messages, which are copied.
pub(crate) fn told_by(alloc: Global, parts: &[&Part]) -> Result<Told, RecoverFault>
    ensures records { IfOk result (λ told. told.records.items ≡ records_told (map (λ p. p.now) parts.now)) }
    ensures plans { IfOk result (λ told. told.plans.items ≡ plans_told (map (λ p. p.now) parts.now)) }
    ensures safe { IfOk result (λ _. AllByRecursion (IsClearPart UnsafeName) (map (λ p. p.now) parts.now)) }
    ensures pullable { IfOk result (λ _. AllByRecursion (IsClearPart BadPlan) (map (λ p. p.now) parts.now)) }
    ensures err { IfErr result (λ e. ¬ (AllByRecursion (IsClearPart e) (map (λ p. p.now) parts.now))) }
{
    let mut told = Told {
        records: Vec::new(alloc),
        plans: Vec::new(alloc),
    };
    for part in parts {
        let infos = part.records.as_slice();
        let plans = part.plans.as_slice();
        add_records(alloc, &mut told.records, infos)?;
        add_plans(alloc, &mut told.plans, plans)?;
    }
    Ok(told)
}

// Appends the records of these messages.
fn add_records(
    alloc: Global,
    records: &mut Vec<Record>,
    infos: &[FileInfo],
) -> Result<(), RecoverFault>
    ensures ok { OnOk result (records.new.items ≡ records.old.items ++ map record_of infos.now) }
    ensures safe { OnOk result (AllByRecursion (IsClearRecord UnsafeName) infos.now) }
    ensures err { IfErr result (λ e. ¬ (AllByRecursion (IsClearRecord e) infos.now)) }
{
    for info in infos {
        let new = read_record(alloc, info)?;
        records.push(new)?;
    }
    Ok(())
}

// The record of a message, which is copied.
fn read_record(alloc: Global, info: &FileInfo) -> Result<Record, RecoverFault>
    ensures ok { IfOk result (λ r. r ≡ record_of info.now) }
    ensures safe { IfOk result (λ _. IsClearRecord UnsafeName info.now) }
    ensures err { IfErr result (λ e. ¬ (IsClearRecord e info.now)) }
{
    let info = info.copy()?;
    match Record::from_info(alloc, info) {
        Ok(record) => Ok(record),
        Err(NameFault::OutOfMemory) => Err(RecoverFault::OutOfMemory),
        Err(_) => Err(RecoverFault::UnsafeName),
    }
}

// Appends these plans.
fn add_plans(alloc: Global, plans: &mut Vec<PullPlan>, more: &[Plan]) -> Result<(), RecoverFault>
    ensures ok { OnOk result (plans.new.items ≡ plans.old.items ++ map plan_of more.now) }
    ensures safe { OnOk result (AllByRecursion (IsClearPlan UnsafeName) more.now) }
    ensures pullable { OnOk result (AllByRecursion (IsClearPlan BadPlan) more.now) }
    ensures err { IfErr result (λ e. ¬ (AllByRecursion (IsClearPlan e) more.now)) }
{
    for plan in more {
        let new = read_plan(alloc, plan)?;
        plans.push(new)?;
    }
    Ok(())
}

// The plan of a message.
fn read_plan(alloc: Global, plan: &Plan) -> Result<PullPlan, RecoverFault>
    ensures ok { IfOk result (λ p. p ≡ plan_of plan.now) }
    ensures safe { IfOk result (λ _. IsClearPlan UnsafeName plan.now) }
    ensures pullable { IfOk result (λ _. IsClearPlan BadPlan plan.now) }
    ensures err { IfErr result (λ e. ¬ (IsClearPlan e plan.now)) }
{
    let target = read_record(alloc, &plan.target)?;
    if !is_pullable(&target) {
        return Err(RecoverFault::BadPlan);
    }
    let base = base_of(alloc, plan)?;
    Ok(PullPlan { base, target })
}

// Whether a pull can put in place what the record says.
fn is_pullable(target: &Record) -> bool
    ensures { result ≡ is_pullable target.now }
{
    target.is_valid() && (target.is_deleted() || target.kind() != Kind::Other)
}

// The version that a plan says, if it says one.
fn base_of(alloc: Global, plan: &Plan) -> Result<Option<Version>, AllocError>
    ensures { IfOk result (λ base. base ≡ base_of plan.now) }
{
    if !plan.has_base {
        return Ok(None);
    }
    let mut pairs = Vec::new(alloc);
    for counter in plan.base.counters.as_slice() {
        pairs.push((counter.id, counter.value))?;
    }
    Ok(Some(Version::from_pairs(pairs)))
}

/// The last index id that one of the parts says, or the one before. Does not allocate. O(p) for p parts.
pub(crate) fn number_after(before: u64, parts: &[&Part]) -> u64
    ensures { result ≡ number_after before (map (λ p. p.now) parts.now) }
{
    let mut number = before;
    for part in parts {
        if part.index_id != 0 {
            number = part.index_id;
        }
    }
    number
}

/// The greatest of the last sequence before and those of the parts. Does not allocate. O(p) for p parts.
pub(crate) fn last_after(before: u64, parts: &[&Part]) -> u64
    requires { before < 2 ^ 63 }
    ensures value { result ≡ fold max before (lasts_told (map (λ p. p.now) parts.now)) }
    ensures fits { result < 2 ^ 63 }
{
    let mut last = before;
    for part in parts {
        last = last.max(natural(part.last));
    }
    last
}

// The number, or 0 for a negative one.
fn natural(number: i64) -> u64
    ensures value { result ≡ natural number }
    ensures fits { result < 2 ^ 63 }
{
    u64::try_from(number).unwrap_or(0)
}
