//! The open pulls, with what stands ready of each once more: the index keeps two of the record that it is given at the end of a
//! commit, and the end does not allocate.
ghost use Rattle.std.specs.Prelude.{◌≡◌, ◌<◌, None, Some, IfOk, IfSome, MatchOption, OnErr, OnOk, length, map, option_and_then, option_copied, slice_get, slice_set};
ghost use Rattle.std.specs.List.{insert, remove};
ghost use Rattle.folder_core.specs.Plain.{commits};
ghost use Rattle.folder_core.specs.PlainPulls.{position_of, pull_for};
ghost use Rattle.folder_core.specs.PlainReads.{version_of};
ghost use Rattle.folder_core.specs.Steps.{committed_record, least_free};
ghost use Rattle.folder_core.specs.declared.pull_stage.PullStage.TheVariants.{Committing};
ghost use Rattle.folder_index.specs.Indexes.{with_promise};
ghost use Rattle.folder_db.specs.Indexed.{ready_of};

use folder_core::plain::pull::OpenPull;
use folder_core::plain::pulls::{announcement, open, place_for};
use folder_core::{PullInfo, PullStage};
use folder_index::Index;
use std::alloc::{AllocError, Global};
use sync_names::SafeName;
use sync_record::Record;

/// What a commit announces, twice.
#[derive(Drop)]
pub(crate) struct ReservedCommit {
    pub(crate) announced: Record,
    pub(crate) copied: Record,
}

/// How many of the pulls are of a lesser name. O(k) for k open pulls.
fn position_of(pulls: &[OpenPull], name: &SafeName) -> usize
    ensures { result ≡ position_of name.now pulls.now }
{
    pulls
        .iter()
        .take_while(|pull| pull.target.name() < name)
        .count()
}

/// Opens a pull of the target over the local record, of which nothing stands ready, and returns what its ticket says. Returns
/// `Err` only if out of memory, and then no pull was opened. O(k^2) for k open pulls.
pub(crate) fn begin(
    pulls: &mut Vec<OpenPull>,
    copies: &mut Vec<Option<Record>>,
    name: &SafeName,
    base: Option<&Record>,
    target: &Record,
) -> Result<PullInfo, AllocError>
    requires { copies.old.items ≡ ready_of pulls.old.items }
    ensures info { IfOk result (λ t. t
        ≡ record {
          number = least_free (map (λ p. p.number) pulls.old.items);
          name = name.now;
          base = option_copied base.entry;
          target = target.now;
        }) }
    ensures opened { OnOk result (pulls.new.items
        ≡ insert pulls.old.items (position_of target.now.name pulls.old.items)
        (record {
          number = least_free (map (λ p. p.number) pulls.old.items);
          base = option_copied base.entry;
          target = target.now;
          ready = None;
        })) }
    ensures stay { OnErr result (pulls.new.items ≡ pulls.old.items) }
    ensures copies { copies.new.items ≡ ready_of pulls.new.items }
{
    copies.reserve(1)?;
    let place = position_of(pulls, target.name());
    let info = open(pulls, name, base, target)?;
    if copies.insert(place, None).is_err() {
        unreachable!()
    }
    Ok(info)
}

/// Takes out the pull that is meant, if it is at this stage, and what stands ready of it. Does not allocate. O(k) for k open
/// pulls.
pub(crate) fn close(
    pulls: &mut Vec<OpenPull>,
    copies: &mut Vec<Option<Record>>,
    info: &PullInfo,
    stage: PullStage,
) -> Option<OpenPull>
    requires { copies.old.items ≡ ready_of pulls.old.items }
    ensures taken { MatchOption result ((pull_for info.now stage pulls.old.items ≡ None)
        × (pulls.new.items ≡ pulls.old.items))
        (λ p. (pull_for info.now stage pulls.old.items ≡ Some p)
        × (pulls.new.items ≡ remove pulls.old.items (position_of info.now.name pulls.old.items))) }
    ensures copies { copies.new.items ≡ ready_of pulls.new.items }
{
    let place = place_for(pulls, info, stage)?;
    copies.remove(place);
    Some(pulls.remove(place))
}

/// Takes out the pull that the commit is for, and returns what it announces. Does not allocate. O(k) for k open pulls.
pub(crate) fn take_ready(
    pulls: &mut Vec<OpenPull>,
    copies: &mut Vec<Option<Record>>,
    info: &PullInfo,
) -> Option<ReservedCommit>
    requires { copies.old.items ≡ ready_of pulls.old.items }
    ensures taken { MatchOption result ((pull_for info.now Committing pulls.old.items ≡ None)
        × (pulls.new.items ≡ pulls.old.items))
        (λ r. (option_and_then (λ p. p.ready) (pull_for info.now Committing pulls.old.items)
        ≡ Some r.announced) × (pulls.new.items ≡ remove pulls.old.items
        (position_of info.now.name pulls.old.items))) }
    ensures same { IfSome result (λ r. r.copied ≡ r.announced) }
    ensures copies { copies.new.items ≡ ready_of pulls.new.items }
{
    let place = place_for(pulls, info, PullStage::Committing)?;
    let copied = copies.remove(place);
    let OpenPull { ready, .. } = pulls.remove(place);
    let Some(announced) = ready else {
        unreachable!()
    };
    let Some(copied) = copied else { unreachable!() };
    Some(ReservedCommit { announced, copied })
}

/// Makes ready, twice, what the pull at this place will announce, and reserves what that needs in the index. Returns `Err` only
/// if out of memory, and then nothing changes.
pub(crate) fn make_ready(
    alloc: Global,
    index: &mut Index,
    pulls: &mut [OpenPull],
    copies: &mut [Option<Record>],
    place: usize,
) -> Result<(), AllocError>
    requires place { place < length pulls.old }
    requires copies { copies.old ≡ ready_of pulls.old }
    ensures reserved { OnOk result (IfSome (slice_get pulls.old place)
        (λ p. index.new ≡ with_promise p.target.name index.old)) }
    ensures ready { OnOk result (IfSome (slice_get pulls.old place)
        (λ p. pulls.new ≡ slice_set pulls.old place
        (record p { ready = Some (committed_record (version_of p.base) p.target) }))) }
    ensures index_stays { OnErr result (index.new ≡ index.old) }
    ensures stay { OnErr result (pulls.new ≡ pulls.old) }
    ensures copies { copies.new ≡ ready_of pulls.new }
{
    let ready = announcement(alloc, &pulls[place])?;
    let copied = ready.copy()?;
    index.reserve(pulls[place].target.name())?;
    pulls[place].ready = Some(ready);
    copies[place] = Some(copied);
    Ok(())
}
