//! The interface of a folder: changes by scans, peers' indexes and pulls; its best, local and needed records; blocks.
ghost use Rattle.std.specs.Prelude.{◌≡◌, ◌≢◌, Some, IfErr, IfOk, IsTrue, map, option_copied, option_map};
ghost use Rattle.folder_core.specs.States.{FolderState, IsFolder, local};
ghost use Rattle.folder_core.specs.declared.change.Change.TheVariants.{Forget, IndexFull, IndexMore, ScanFound, ScanGone, BeginPull, EnterCommit, Finish, GiveUp, Abort};
ghost use Rattle.folder_core.specs.Steps.{is_accepted, is_recordable, step};
ghost use Rattle.folder_core.specs.Reads.{IsSomePlace, best_with_devices, bests_page, counts, known, local_since, need_page};
ghost use Rattle.folder_core.specs.Calls.{Changes, GivesBack, index_answer, scan_answer, begin_answer, enter_answer, finish_answer, close_answer};

use crate::{
    BeginAnswer, Best, Change, Commit, Counts, EnterFault, Finding, Place, PlainFolder, ScanAnswer,
    ScanFault, Stray, Ticket,
};
use bep_messages::Items;
use std::alloc::AllocError;
use sync_names::SafeName;
use sync_record::{Assembled, DeviceId, Record};
use sync_version::{Moment, Version};

/// A folder as one device keeps it, as a value. However it is kept, each change is a step of the folder, and each read
/// returns what its state says.
///
/// A call that returns `AllocError` changed nothing. `me` does not allocate.
pub trait FolderCore {
    /// What it keeps.
    ghost state: { Self → FolderState };

    /// This device. What it keeps is the state of a folder.
    fn me(&self) -> DeviceId
        ensures me { result ≡ (state self.now).me }
        ensures folder { IsFolder (state self.now) };

    /// Records what is found at a name, if its local version is still the expected one. The version is raised by this device
    /// at the moment. Returns `Moved` with the local version if it is another, and `Busy` while a commit of the name is open.
    fn scan_found(
        &mut self,
        name: &SafeName,
        expected: Option<&Version>,
        found: &Finding,
        moment: Moment,
    ) -> Result<ScanAnswer, ScanFault>
        requires { IsTrue (is_recordable found.now.content) }
        ensures { Changes (state self.old)
            (ScanFound name.now (option_copied expected.entry) found.now moment)
            (scan_answer result) (state self.new) };

    /// Records that nothing is at a name, if its local version is still the expected one. The version is raised by this
    /// device at the moment. Returns `Moved` with the local version if it is another, and `Busy` while a commit of the name is
    /// open.
    fn scan_gone(
        &mut self,
        name: &SafeName,
        expected: Option<&Version>,
        moment: Moment,
    ) -> Result<ScanAnswer, ScanFault>
        ensures { Changes (state self.old) (ScanGone name.now (option_copied expected.entry) moment)
            (scan_answer result) (state self.new) };

    /// The device announces these records and no others; of several under one name the last counts. Returns `Err` only
    /// if out of memory.
    fn index_full(&mut self, device: DeviceId, records: Items<Record>) -> Result<(), AllocError>
        requires { device ≢ (state self.old).me }
        ensures { Changes (state self.old) (IndexFull device records) (index_answer result)
            (state self.new) };

    /// The device announces these records too; of several under one name the last counts. Returns `Err` only if out of
    /// memory.
    fn index_more(&mut self, device: DeviceId, records: Items<Record>) -> Result<(), AllocError>
        requires { device ≢ (state self.old).me }
        ensures { Changes (state self.old) (IndexMore device records) (index_answer result)
            (state self.new) };

    /// The device announces nothing. Returns `Err` only if out of memory.
    fn forget(&mut self, device: DeviceId) -> Result<(), AllocError>
        requires { device ≢ (state self.old).me }
        ensures { Changes (state self.old) (Forget device) (index_answer result) (state self.new) };

    /// Begins to pull the best of a name, and answers the first of these that applies: `Busy` if a pull of the name is
    /// open, `NotNeeded` if there is no best, if the local record is as good or if the best is deleted and there is no local record,
    /// and `Unsupported` if the best is live and neither a file nor a directory. Otherwise the pull is open, under the least positive number that no open pull has.
    /// Returns `Err` only if out of memory.
    fn begin_pull(&mut self, name: &SafeName) -> Result<BeginAnswer, AllocError>
        ensures { Changes (state self.old) (BeginPull name.now) (begin_answer result)
            (state self.new) };

    /// Enters the commit of a pull, and fails with the first of these that applies: `Stray`, `LocalMoved`, `Superseded`,
    /// `SequenceFull` and `OutOfMemory`. Every ticket but a stray one comes back.
    fn enter_commit(&mut self, ticket: Ticket) -> Result<Commit, EnterFault>
        ensures change { Changes (state self.old) (EnterCommit ticket) (enter_answer result)
            (state self.new) }
        ensures given_back { IfErr result (GivesBack ticket) };

    /// Announces the target of a commit, whose file is in place, as the local record, with what the base had seen added
    /// to its version; closes the pull, and returns the record's sequence. A stray commit changes nothing. Does not
    /// allocate.
    fn finish(&mut self, commit: Commit, assembled: &Assembled) -> Result<u64, Stray>
        requires { assembled.now ≡ commit.target }
        ensures { Changes (state self.old) (Finish commit assembled.now)
            (Some (finish_answer result)) (state self.new) };

    /// Closes a pull whose commit was not entered. Returns `false` if the ticket is stray; then nothing changes. Does not
    /// allocate.
    fn give_up(&mut self, ticket: Ticket) -> bool
        ensures { Changes (state self.old) (GiveUp ticket) (Some (close_answer result))
            (state self.new) };

    /// Closes a pull whose commit was entered; the local record stays. Returns `false` if the commit is stray; then
    /// nothing changes. Does not allocate.
    fn abort(&mut self, commit: Commit) -> bool
        ensures { Changes (state self.old) (Abort commit) (Some (close_answer result))
            (state self.new) };

    /// Whether the change would be made if it were asked for now: whether its call, unless out of memory, would answer
    /// `Recorded`, `Begun` or `Entered`, return `Ok` for an index, `forget` and `finish`, or `true` for `give_up` and `abort`.
    /// What the change says of a pull stands for the ticket or the commit that it was made from. What the call requires beside is
    /// not asked. Changes nothing, and does not allocate.
    fn accepts(&self, change: &Change) -> bool
        ensures { result ≡ is_accepted (step (state self.now) change.now).0 };

    /// A copy of the best record of a name, and the devices whose valid record of the name has its version and its
    /// content; `None` where no valid record of the name is announced. Returns `Err` only if out of memory.
    fn best(&self, name: &SafeName) -> Result<Option<Best>, AllocError>
        ensures { IfOk result (λ b. option_map (λ b. (b.record, b.devices)) b
            ≡ best_with_devices (state self.now) name.now) };

    /// The bests of the names greater than `after`, or of all names where it is `None`, in byte order of the names: the
    /// first `limit` of them, or all where there are fewer. Returns `Err` only if out of memory.
    fn bests(&self, after: Option<&SafeName>, limit: usize) -> Result<Items<Best>, AllocError>
        ensures { IfOk result (λ page. map (λ b. (b.record, b.devices)) page
            ≡ bests_page (state self.now) (option_copied after.entry) limit) };

    /// The record that this device announces of a name, if there is one. Returns `Err` only if out of memory.
    fn local(&self, name: &SafeName) -> Result<Option<Record>, AllocError>
        ensures { IfOk result (λ r. r ≡ local (state self.now) name.now) };

    /// The names greater than `after`, or all names where it is `None`, that this device needs, in byte order: those whose
    /// best is of another version than the local record, and those without a local record unless the best is deleted. The
    /// first `limit` of them, or all where there are fewer. Returns `Err` only if out of memory.
    fn need(&self, after: Option<&SafeName>, limit: usize) -> Result<Items<SafeName>, AllocError>
        ensures { IfOk result (λ names. names
            ≡ need_page (state self.now) (option_copied after.entry) limit) };

    /// The local records of greater sequence, in rising sequence: the first `limit` of them, but no more than have
    /// 1,000,000 blocks together, except that one record may have any number; or all where there are fewer. Returns `Err`
    /// only if out of memory.
    fn local_since(&self, sequence: u64, limit: usize) -> Result<Items<Record>, AllocError>
        ensures { IfOk result (λ page. page ≡ local_since (state self.now) sequence limit) };

    /// A place of the block with this SHA-256 digest in a live local file, if there is one. Returns `Err` only if out of
    /// memory.
    fn find_block(&self, hash: &[u8; 32]) -> Result<Option<Place>, AllocError>
        ensures { IfOk result (λ place. IsSomePlace (state self.now) hash.now place) };

    /// The greatest sequence that the device announced, 0 without any; of this device the last one that it gave. Does not
    /// allocate.
    fn known(&self, device: DeviceId) -> u64
        ensures { result ≡ known (state self.now) device };

    /// How much the folder has. Does not allocate.
    fn counts(&self) -> Counts
        ensures { result ≡ counts (state self.now) };

    /// A plain folder of the same state, with the same open pulls; it shares the records. Later changes of the one leave the
    /// other as it is. Returns `Err` only if out of memory.
    fn plain_copy(&self) -> Result<PlainFolder, AllocError>
        ensures { IfOk result (λ copy. copy ≡ state self.now) };
}
