//! The open pulls of a folder.
ghost use Rattle.std.specs.Prelude.{◌≡◌, ◌+◌, ◌<◌, ◌≤◌, ◌==◌, Err, None, Ok, Some, not, IfOk, IfSome, OnErr, OnOk, MatchOption, bytes_eq, length, map, option_and_then, option_copied, option_map, slice_get, slice_set, vec_len, vec_capacity};
ghost use Rattle.std.specs.List.{insert, list_any, remove};
ghost use Rattle.std.specs.Result.{result_err};
ghost use Rattle.folder_core.specs.Calls.{GivesBack, begin_answer, enter_answer};
ghost use Rattle.folder_core.specs.Plain.{commits, stage_of};
ghost use Rattle.folder_core.specs.PlainPulls.{begin_refusal, begin_tests_of, best_in, entry_refusal, entry_tests_of, is_best_in, is_for, is_unsupported, position_of, pull_for};
ghost use Rattle.folder_core.specs.PlainReads.{version_of};
ghost use Rattle.folder_core.specs.PlainScans.{first_of};
ghost use Rattle.folder_core.specs.States.{same_local_version, same_stage};
ghost use Rattle.folder_core.specs.Steps.{committed_record, least_free};
ghost use Rattle.folder_core.specs.declared.pull_stage.PullStage.TheVariants.{Committing};

use super::group::best_of;
use super::own::version_of;
use super::pull::OpenPull;
use crate::{Announcement, BeginAnswer, EnterFault, PullInfo, PullStage, Ticket, is_needed_over};
use std::alloc::{AllocError, Global};
use sync_names::SafeName;
use sync_record::{Kind, Record, same_content};
use sync_version::Version;

/// Whether a pull of the name is open. O(k) for k open pulls.
pub fn has_pull(pulls: &[OpenPull], name: &SafeName) -> bool
    ensures { result ≡ list_any (λ p. bytes_eq name.now p.target.name) pulls.now }
{
    pulls.iter().any(|pull| name == pull.target.name())
}

/// How many of the pulls are of a lesser name. O(k) for k open pulls.
fn position_of(pulls: &[OpenPull], name: &SafeName) -> usize
    ensures { result ≡ position_of name.now pulls.now }
{
    pulls
        .iter()
        .take_while(|pull| pull.target.name() < name)
        .count()
}

/// The place of the pull that is meant, if it is at this stage. O(k) for k open pulls.
pub fn place_for(pulls: &[OpenPull], info: &PullInfo, stage: PullStage) -> Option<usize>
    ensures place { IfSome result (λ i. i ≡ position_of info.now.name pulls.now) }
    ensures within { IfSome result (λ i. i < length pulls.now) }
    ensures found { option_and_then (slice_get pulls.now) result
        ≡ pull_for info.now stage pulls.now }
{
    let place = position_of(pulls, &info.name);
    let pull = pulls.get(place)?;
    is_for(pull, info, stage).then_some(place)
}

fn is_for(pull: &OpenPull, info: &PullInfo, stage: PullStage) -> bool
    ensures { result ≡ is_for info.now stage pull.now }
{
    info.name == *pull.target.name()
        && pull.number == info.number
        && is_at(pull, stage)
        && pull.target == info.target
}

/// Whether the pull is at this stage.
fn is_at(pull: &OpenPull, stage: PullStage) -> bool
    ensures { result ≡ same_stage (stage_of pull.now.ready) stage }
{
    match stage {
        PullStage::Pulling => pull.ready.is_none(),
        PullStage::Committing => pull.ready.is_some(),
    }
}

/// Takes out the pull that is meant, if it is at this stage. Does not allocate. O(k) for k open pulls.
pub fn take(pulls: &mut Vec<OpenPull>, info: &PullInfo, stage: PullStage) -> Option<OpenPull>
    // Both results in one: none is meant and all stay, or the pull that is meant is returned and is out of the list.
    ensures { MatchOption result ((pull_for info.now stage pulls.old.items ≡ None)
        × (pulls.new.items ≡ pulls.old.items))
        (λ p. (pull_for info.now stage pulls.old.items ≡ Some p)
        × (pulls.new.items ≡ remove pulls.old.items (position_of info.now.name pulls.old.items))) }
{
    let place = place_for(pulls, info, stage)?;
    Some(pulls.remove(place))
}

/// Takes out the pull that the commit is for, and returns what it announces. Does not allocate. O(k) for k open pulls.
pub fn take_ready(pulls: &mut Vec<OpenPull>, info: &PullInfo) -> Option<Record>
    // The same two results, but what is returned is the record that the pull would announce, not the pull.
    ensures { MatchOption result ((pull_for info.now Committing pulls.old.items ≡ None)
        × (pulls.new.items ≡ pulls.old.items))
        (λ r. (option_and_then (λ p. p.ready) (pull_for info.now Committing pulls.old.items)
        ≡ Some r) × (pulls.new.items ≡ remove pulls.old.items
        (position_of info.now.name pulls.old.items))) }
{
    let OpenPull { ready, .. } = take(pulls, info, PullStage::Committing)?;
    ready
}

/// Opens a pull of the target over the local record, and returns what its ticket says. O(k^2) for k open pulls.
pub fn open(
    pulls: &mut Vec<OpenPull>,
    name: &SafeName,
    base: Option<&Record>,
    target: &Record,
) -> Result<PullInfo, AllocError>
    ensures info { IfOk result (λ t. t
        ≡ record {
          number = least_free (map (λ p. p.number) pulls.old.items);
          name = name.now;
          base = option_copied base.entry;
          target = target.now;
        }) }
    // The pulls afterwards are the old ones with one put in at its place, which is written out here as a value.
    ensures opened { OnOk result (pulls.new.items
        ≡ insert pulls.old.items (position_of target.now.name pulls.old.items)
        (record {
          number = least_free (map (λ p. p.number) pulls.old.items);
          base = option_copied base.entry;
          target = target.now;
          ready = None;
        })) }
    ensures stay { OnErr result (pulls.new.items ≡ pulls.old.items) }
{
    let number = least_free(pulls);
    let info = PullInfo {
        number,
        name: name.copy()?,
        base: copy_of(base)?,
        target: target.copy()?,
    };
    let pull = OpenPull {
        number,
        base: copy_of(base)?,
        target: target.copy()?,
        ready: None,
    };
    let place = position_of(pulls, target.name());
    pulls.insert(place, pull)?;
    Ok(info)
}

/// A copy of the record, if there is one. O(1).
fn copy_of(record: Option<&Record>) -> Result<Option<Record>, AllocError>
    ensures { IfOk result (λ r. r ≡ option_copied «record».entry) }
{
    match record {
        Some(record) => Ok(Some(record.copy()?)),
        None => Ok(None),
    }
}

/// The least positive number that no pull has. O(k^2) for k open pulls.
fn least_free(pulls: &[OpenPull]) -> u64
    ensures { result ≡ least_free (map (λ p. p.number) pulls.now) }
{
    for lesser in 0..pulls.len() as u64 {
        if !has_number(pulls, lesser + 1) {
            return lesser + 1;
        }
    }
    pulls.len() as u64 + 1
}

fn has_number(pulls: &[OpenPull], number: u64) -> bool
    ensures { result ≡ list_any (λ p. p.number == number) pulls.now }
{
    pulls.iter().any(|pull| pull.number == number)
}

/// Why no pull of a name begins.
#[derive(Clone, Copy, Debug, PartialEq, Eq)]
pub enum BeginObstacle {
    Busy,
    NotNeeded,
    Unsupported,
}

/// The best of the entries of one name, which a pull of it would fetch over this local record; or the first test of a begin
/// that holds, in the order of the rules. Does not allocate. O(d^2 + v) for d entries and v counters.
pub fn best_to_pull<'a>(
    is_open: bool,
    announced: &'a [Announcement],
    local: Option<&Record>,
) -> Result<&'a Announcement, BeginObstacle>
    ensures best { IfOk result (λ b. best_in announced.now ≡ Some b.now) }
    ensures refused { option_map begin_refusal (result_err result)
        ≡ first_of (begin_tests_of is_open (option_copied local.entry) (best_in announced.now)) }
{
    if is_open {
        return Err(BeginObstacle::Busy);
    }
    let Some(best) = best_of(announced) else {
        return Err(BeginObstacle::NotNeeded);
    };
    if !is_needed_over(local, &best.record) {
        return Err(BeginObstacle::NotNeeded);
    }
    if is_unsupported(&best.record) {
        return Err(BeginObstacle::Unsupported);
    }
    Ok(best)
}

/// What a begin answers for this reason.
pub fn begin_refused(obstacle: BeginObstacle) -> BeginAnswer
    ensures { begin_answer (Ok result) ≡ Some (begin_refusal obstacle) }
{
    match obstacle {
        BeginObstacle::Busy => BeginAnswer::Busy,
        BeginObstacle::NotNeeded => BeginAnswer::NotNeeded,
        BeginObstacle::Unsupported => BeginAnswer::Unsupported,
    }
}

/// Whether the record is live, and neither a file nor a directory.
fn is_unsupported(record: &Record) -> bool
    ensures { result ≡ is_unsupported «record».now }
{
    !record.is_deleted() && record.kind() == Kind::Other
}

/// Whether the local record is of another version than the base.
fn has_moved(local: Option<&Record>, base: Option<&Record>) -> bool
    ensures { result ≡ not (same_local_version (version_of (option_copied local.entry))
        (version_of (option_copied base.entry))) }
{
    version_of(local) != version_of(base)
}

/// Whether the best of the entries of one name has the version and the content of the record. O(k^2) for k entries.
fn is_best(group: &[Announcement], record: &Record) -> bool
    ensures { result ≡ is_best_in group.now «record».now }
{
    best_of(group).is_some_and(|best| {
        best.record.version() == record.version() && same_content(&best.record, record)
    })
}

/// Why the commit of an open pull is not entered.
#[derive(Clone, Copy, Debug, PartialEq, Eq)]
pub enum EntryObstacle {
    LocalMoved,
    Superseded,
    SequenceFull,
}

/// The first test by which the pull's commit is not entered, in the order of the rules, where these are the entries of
/// its name and this is the local record among them. Does not allocate. O(d^2 + b) for d entries, and b blocks and counters.
pub fn entry_obstacle(
    pull: &OpenPull,
    group: &[Announcement],
    local: Option<&Record>,
    is_full: bool,
) -> Option<EntryObstacle>
    ensures { option_map entry_refusal result
        ≡ first_of (entry_tests_of pull.now (option_copied local.entry)
        (is_best_in group.now pull.now.target) is_full) }
{
    if has_moved(local, pull.base.as_ref()) {
        return Some(EntryObstacle::LocalMoved);
    }
    if !is_best(group, &pull.target) {
        return Some(EntryObstacle::Superseded);
    }
    if is_full {
        return Some(EntryObstacle::SequenceFull);
    }
    None
}

/// What `enter_commit` answers for this reason. The ticket is given back.
pub fn not_entered(obstacle: EntryObstacle, ticket: Ticket) -> EnterFault
    ensures told { enter_answer (Err result) ≡ Some (entry_refusal obstacle) }
    ensures given_back { GivesBack ticket result }
{
    match obstacle {
        EntryObstacle::LocalMoved => EnterFault::LocalMoved(ticket),
        EntryObstacle::Superseded => EnterFault::Superseded(ticket),
        EntryObstacle::SequenceFull => EnterFault::SequenceFull(ticket),
    }
}

/// Makes ready what the pull at this place will announce, and a place for it among the entries beside those that are
/// promised. If out of memory, all stays as it was.
pub(super) fn make_ready(
    entries: &mut Vec<Announcement>,
    promised: usize,
    pulls: &mut [OpenPull],
    place: usize,
) -> Result<(), AllocError>
    requires { place < length pulls.old }
    ensures entries_stay { entries.new.items ≡ entries.old.items }
    ensures len { vec_len entries.new ≡ vec_len entries.old }
    ensures grown { vec_capacity entries.old ≤ vec_capacity entries.new }
    ensures entries_fit { OnOk result
        (vec_len entries.new + (promised + 1) ≤ vec_capacity entries.new) }
    ensures ready { OnOk result (IfSome (slice_get pulls.old place)
        (λ p. pulls.new ≡ slice_set pulls.old place
        (record p { ready = Some (committed_record (version_of p.base) p.target) }))) }
    ensures stay { OnErr result (pulls.new ≡ pulls.old) }
{
    let ready = announcement(*entries.allocator(), &pulls[place])?;
    let more = promised.checked_add(1).ok_or(AllocError)?;
    entries.reserve(more)?;
    pulls[place].ready = Some(ready);
    Ok(())
}

/// What is announced once the target is in the place of the base; its sequence is the target's. O(n) for n bytes of the
/// names, the symlink target, the counters and the blocks.
pub fn announcement(alloc: Global, pull: &OpenPull) -> Result<Record, AllocError>
    ensures { IfOk result (λ r. r ≡ committed_record (version_of pull.now.base) pull.now.target) }
{
    let version = match &pull.base {
        Some(base) => base.version().merge(pull.target.version())?,
        None => Version::new(alloc).merge(pull.target.version())?,
    };
    pull.target.with_version(version)
}
