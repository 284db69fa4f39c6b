//! The interface by which workers call a folder: what scans find, peers' indexes, pulls, bests, needed names, blocks.
ghost use Rattle.std.specs.Prelude.{◌≡◌, ◌≢◌, IfErr, IfOk, IsTrue, Some, map, option_copied, option_map};
ghost use Rattle.folder_core.specs.Calls.{close_answer, finish_answer};
ghost use Rattle.folder_core.specs.Reads.{Bests, Best as BestOf, CountAll, FindBlock, Known, Local, LocalSince, Need};
ghost use Rattle.folder_core.specs.Steps.{is_recordable};
ghost use Rattle.folder_core.specs.declared.change.Change.TheVariants.{Forget, IndexFull, IndexMore, ScanFound, ScanGone, BeginPull, EnterCommit, Finish, GiveUp, Abort};
ghost use Rattle.folder_calls.specs.Calls.{GivesBack, begin_value, enter_value, best_entry, index_value, scan_value, answered_at, answer_at};
ghost use Rattle.folder_calls.specs.Shared.{IsLegalView, ReadsAt, ChangesAt, CallerView};

use crate::{
    At, BeginAnswer, EnterAllocError, EnterRefusal, HistoryFull, PullCommit, PullTicket,
    ScanRefusal,
};
use bep_messages::Items;
use folder_core::{Best, Counts, Finding, Place, ScanAnswer, Stray};
use std::alloc::AllocError;
use sync_names::SafeName;
use sync_record::{Assembled, DeviceId, Record};
use sync_version::{Moment, Version};

/// A folder as a worker calls it: alone or beside other callers, which it needn't know. There is one history of the changes
/// that were accepted, and the caller knows a beginning of it with all entries of its own.
///
/// Each call returns what the folder says at some point of that history, no earlier than what the caller had seen, and the
/// number of entries there; afterwards the caller has seen the history up to there. An accepted change is the last entry at
/// its point, and the caller's only new one; all else adds no entry. A call that is out of memory changed nothing, and its
/// caller has seen no more.
pub trait FolderCalls {
    ghost use Rattle.folder_calls.specs.Shared.{CallerView};

    /// Where the history is kept: a folder that others share, or the worker's own.
    type Folder;

    ghost folder: { Self → Self.Folder };

    /// What the caller knows.
    ghost view: { Self → CallerView };

    /// This device.
    fn me(&self) -> DeviceId
        ensures me { result ≡ (view self.now).opening.me }
        ensures legal { ∥ IsLegalView (view self.now) ∥₁ };

    /// Records what is found at a name, if its local version is still the expected one. The version is raised by this device
    /// at the moment. Returns `Moved` with the local version if it is another, and `Busy` while a commit of the name is open.
    fn scan_found(
        &mut self,
        name: &SafeName,
        expected: Option<&Version>,
        found: &Finding,
        moment: Moment,
    ) -> Result<At<Result<ScanAnswer, ScanRefusal>>, AllocError>
        requires { IsTrue (is_recordable found.now.content) }
        ensures folder { folder self.new ≡ folder self.old }
        ensures changes { ChangesAt (view self.old)
            (ScanFound name.now (option_copied expected.entry) found.now moment)
            (answered_at scan_value result) (view self.new) };

    /// Records that nothing is at a name, if its local version is still the expected one. The version is raised by this
    /// device at the moment. Returns `Moved` with the local version if it is another, and `Busy` while a commit of the name is
    /// open.
    fn scan_gone(
        &mut self,
        name: &SafeName,
        expected: Option<&Version>,
        moment: Moment,
    ) -> Result<At<Result<ScanAnswer, ScanRefusal>>, AllocError>
        ensures folder { folder self.new ≡ folder self.old }
        ensures changes { ChangesAt (view self.old)
            (ScanGone name.now (option_copied expected.entry) moment)
            (answered_at scan_value result)
            (view self.new) };

    /// The device announces these records and no others; of several under one name the last counts.
    fn index_full(
        &mut self,
        device: DeviceId,
        records: Items<Record>,
    ) -> Result<At<Result<(), HistoryFull>>, AllocError>
        requires { device ≢ (view self.old).opening.me }
        ensures folder { folder self.new ≡ folder self.old }
        ensures changes { ChangesAt (view self.old) (IndexFull device records)
            (answered_at index_value result)
            (view self.new) };

    /// The device announces these records too; of several under one name the last counts.
    fn index_more(
        &mut self,
        device: DeviceId,
        records: Items<Record>,
    ) -> Result<At<Result<(), HistoryFull>>, AllocError>
        requires { device ≢ (view self.old).opening.me }
        ensures folder { folder self.new ≡ folder self.old }
        ensures changes { ChangesAt (view self.old) (IndexMore device records)
            (answered_at index_value result)
            (view self.new) };

    /// The device announces nothing.
    fn forget(&mut self, device: DeviceId) -> Result<At<Result<(), HistoryFull>>, AllocError>
        requires { device ≢ (view self.old).opening.me }
        ensures folder { folder self.new ≡ folder self.old }
        ensures changes { ChangesAt (view self.old) (Forget device) (answered_at index_value result)
            (view self.new) };

    /// Begins to pull the best of a name, and answers the first of these that applies: `Busy` if a pull of the name is
    /// open, `NotNeeded` if there is no best, if the local record is as good or if the best is deleted and there is no local record,
    /// and `Unsupported` if the best is live and neither a file nor a directory. Otherwise the pull is open, under the least positive number that no open pull has, and
    /// the ticket has the name.
    fn begin_pull(
        &mut self,
        name: &SafeName,
    ) -> Result<At<Result<BeginAnswer, HistoryFull>>, AllocError>
        ensures folder { folder self.new ≡ folder self.old }
        ensures changes { ChangesAt (view self.old) (BeginPull name.now)
            (answered_at begin_value result)
            (view self.new) };

    /// Enters the commit of a pull, and fails with the first of these that applies: `Stray`, `LocalMoved`, `Superseded`,
    /// `SequenceFull` and `HistoryFull`. Every ticket but a stray one comes back. The commit has the number, name, base and target
    /// of its ticket.
    fn enter_commit(
        &mut self,
        ticket: PullTicket,
    ) -> Result<At<Result<PullCommit, EnterRefusal>>, EnterAllocError>
        ensures folder { folder self.new ≡ folder self.old }
        ensures changes { ChangesAt (view self.old) (EnterCommit ticket)
            (answered_at enter_value result)
            (view self.new) }
        ensures given_back { IfOk result (λ reply. IfErr reply.value (GivesBack ticket)) }
        ensures out_of_memory { IfErr result (λ refused. refused.0 ≡ ticket) };

    /// Announces the target of a commit, whose file is in place, as the local record, with what the base had seen added
    /// to its version; closes the pull, and returns the record's sequence. A stray commit changes nothing. Does not
    /// allocate.
    fn finish(&mut self, commit: PullCommit, assembled: Assembled) -> At<Result<u64, Stray>>
        requires { assembled ≡ commit.target }
        ensures folder { folder self.new ≡ folder self.old }
        ensures changes { ChangesAt (view self.old) (Finish commit assembled)
            (Some (answer_at finish_answer result)) (view self.new) };

    /// Closes a pull whose commit was not entered. Returns `false` if the ticket is stray; then nothing changes. Does not
    /// allocate.
    fn give_up(&mut self, ticket: PullTicket) -> At<bool>
        ensures folder { folder self.new ≡ folder self.old }
        ensures changes { ChangesAt (view self.old) (GiveUp ticket)
            (Some (answer_at close_answer result))
            (view self.new) };

    /// Closes a pull whose commit was entered; the local record stays. Returns `false` if the commit is stray; then
    /// nothing changes. Does not allocate.
    fn abort(&mut self, commit: PullCommit) -> At<bool>
        ensures folder { folder self.new ≡ folder self.old }
        ensures changes { ChangesAt (view self.old) (Abort commit)
            (Some (answer_at close_answer result))
            (view self.new) };

    /// A copy of the best record of a name, and the devices whose valid record of the name has its version and its
    /// content; `None` where no valid record of the name is announced.
    fn best(&mut self, name: &SafeName) -> Result<At<Option<Best>>, AllocError>
        ensures folder { folder self.new ≡ folder self.old }
        ensures reads { ReadsAt (view self.old) (BestOf name.now)
            (answered_at (λ b. option_map best_entry b) result) (view self.new) };

    /// The bests of the names greater than `after`, or of all names where it is `None`, in byte order of the names: the
    /// first `limit` of them, or all where there are fewer.
    fn bests(
        &mut self,
        after: Option<&SafeName>,
        limit: usize,
    ) -> Result<At<Items<Best>>, AllocError>
        ensures folder { folder self.new ≡ folder self.old }
        ensures reads { ReadsAt (view self.old) (Bests (option_copied after.entry) limit)
            (answered_at (λ page. map best_entry page) result) (view self.new) };

    /// The record that this device announces of a name, if there is one.
    fn local(&mut self, name: &SafeName) -> Result<At<Option<Record>>, AllocError>
        ensures folder { folder self.new ≡ folder self.old }
        ensures reads { ReadsAt (view self.old) (Local name.now) (answered_at (λ r. r) result)
            (view self.new) };

    /// The names greater than `after`, or all names where it is `None`, that this device needs, in byte order: those whose
    /// best is of another version than the local record, and those without a local record unless the best is deleted. The
    /// first `limit` of them, or all where there are fewer.
    fn need(
        &mut self,
        after: Option<&SafeName>,
        limit: usize,
    ) -> Result<At<Items<SafeName>>, AllocError>
        ensures folder { folder self.new ≡ folder self.old }
        ensures reads { ReadsAt (view self.old) (Need (option_copied after.entry) limit)
            (answered_at (λ names. names) result) (view self.new) };

    /// The local records of greater sequence, in rising sequence: the first `limit` of them, but no more than have
    /// 1,000,000 blocks together, except that one record may have any number; or all where there are fewer.
    fn local_since(&mut self, sequence: u64, limit: usize) -> Result<At<Items<Record>>, AllocError>
        ensures folder { folder self.new ≡ folder self.old }
        ensures reads { ReadsAt (view self.old) (LocalSince sequence limit)
            (answered_at (λ page. page) result) (view self.new) };

    /// A place of the block with this SHA-256 digest in a live local file, if there is one.
    fn find_block(&mut self, hash: &[u8; 32]) -> Result<At<Option<Place>>, AllocError>
        ensures folder { folder self.new ≡ folder self.old }
        ensures reads { ReadsAt (view self.old) (FindBlock hash.now)
            (answered_at (λ place. place) result) (view self.new) };

    /// The greatest sequence that the device announced, 0 without any; of this device the last one that it gave. Does not
    /// allocate.
    fn known(&mut self, device: DeviceId) -> At<u64>
        ensures folder { folder self.new ≡ folder self.old }
        ensures reads { ReadsAt (view self.old) (Known device)
            (Some (answer_at (λ sequence. sequence) result)) (view self.new) };

    /// How much the folder has. Does not allocate.
    fn counts(&mut self) -> At<Counts>
        ensures folder { folder self.new ≡ folder self.old }
        ensures reads { ReadsAt (view self.old) CountAll
            (Some (answer_at (λ counts. counts) result)) (view self.new) };
}
