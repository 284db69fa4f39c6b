//! A folder with the history of its changes.
ghost use Rattle.std.specs.Prelude.{◌≡◌, ◌≢◌, ◌≤◌, ◌+◌, ◌<◌, ◌++◌, ◌∷◌, [], ◌^◌, Err, IfErr, IfOk, IfSome, IsOk, IsTrue, None, Ok, Some, false, if◌then◌else◌, is_some, length, nat_le, option_copied, option_map, true, vec_capacity};
ghost use Rattle.std.specs.FinMap.{len};
ghost use Rattle.sync_record.specs.Assemblies.{IsAssembled};
ghost use Rattle.folder_core.specs.Calls.{Changes, GivesBack as GivesBackOpen, close_answer, enter_answer, finish_answer, scan_answer};
ghost use Rattle.folder_core.specs.Steps.{is_accepted, is_recordable, step};
ghost use Rattle.folder_core.specs.declared.answer.Answer.TheVariants.{Begun};
ghost use Rattle.folder_core.specs.declared.change.Change.TheVariants.{Forget, IndexFull, IndexMore, ScanFound, ScanGone, BeginPull, EnterCommit, Finish, GiveUp, Abort};
ghost use Rattle.folder_calls.specs.Calls.{GivesBack, begin_value, enter_value, index_value, scan_value};
ghost use Rattle.folder_calls.specs.RecordedFolders.{Appends, IsHistory, answered, end, appended, new_history};

use crate::{
    BeginAnswer, EnterAllocError, EnterRefusal, Entry, HistoryFull, PullCommit, PullTicket,
    ScanRefusal, replays,
};
use bep_messages::{Copied, Items};
use folder_core::{
    Answer, Change, Finding, FolderCore, PlainFolder, PullInfo, ScanAnswer, ScanFault, Stray,
};
use std::alloc::{AllocError, Global};
use std::marker::Model;
use sync_names::SafeName;
use sync_record::{Assembled, DeviceId, Record};
use sync_version::{Moment, Version};

/// A folder, what it was when it was opened, and the history of its changes since.
///
/// Each change is made for a pass, whose number stands in its entry. A change that the folder would accept is refused with
/// `HistoryFull` if there is no room for its entry and for those that end the pulls that are then open. The room for the
/// entry that ends a pull is kept while the pull is open, so that ending it does not allocate.
#[derive(Drop)]
pub struct RecordedFolder<C: FolderCore> {
    core: C,
    opening: PlainFolder,
    entries: Vec<Entry>,
    limit: u64,
    passes: u64,
    /// How many pulls are open.
    pulls: u64,
}

impl<C: FolderCore> Model for RecordedFolder<C> {
    ghost use Rattle.std.specs.Prelude.{vec_capacity};
    ghost use Rattle.folder_calls.specs.declared.history.History.{History};
    ghost use Rattle.folder_calls.specs.RecordedFolders.{IsRecordedFolder};

    ghost Value = { History };

    ghost use Rattle.folder_calls.specs.Codes.{coded_history};

    ghost coded = { coded_history };

    ghost view = { λ j. record {
      opening = j.opening;
      entries = j.entries.items;
      limit = j.limit;
      passes = j.passes;
    } };

    ghost invariant = { λ j. IsRecordedFolder (C.state j.core) j.pulls (vec_capacity j.entries)
        (record {
          opening = j.opening;
          entries = j.entries.items;
          limit = j.limit;
          passes = j.passes;
        }) };
}

impl<C: FolderCore> RecordedFolder<C> {
    /// The folder with an empty history. Returns `Err` with the folder only if its copy could not be allocated. O(n) time and
    /// memory for n records, which share their memory.
    pub fn open(alloc: Global, core: C, limit: u64, passes: u64) -> Result<RecordedFolder<C>, C>
        requires pulls { len (C.state core).pulls ≡ 0 }
        requires passes { passes ≤ 2 ^ 32 }
        ensures ok { IfOk result (λ recorded. recorded ≡ new_history (C.state core) limit passes) }
        ensures err { IfErr result (λ back. C.state back ≡ C.state core) }
    {
        let _ = core.me();
        let Ok(opening) = core.plain_copy() else {
            return Err(core);
        };
        Ok(RecordedFolder {
            core,
            opening,
            entries: Vec::new(alloc),
            limit,
            passes,
            pulls: 0,
        })
    }

    /// The folder, after the history. O(n) for n entries, which are dropped.
    pub fn into_core(self) -> C
        ensures core { C.state result ≡ end self }
        ensures history { IsHistory self }
    {
        let RecordedFolder {
            core,
            opening: _,
            entries: _,
            limit: _,
            passes: _,
            pulls: _,
        } = self;
        core
    }

    /// The folder, after the history. O(1).
    pub fn core(&self) -> &C
        ensures core { C.state result.now ≡ end self.now }
        ensures history { IsHistory self.now }
    {
        &self.core
    }

    /// The number of entries. O(1).
    pub fn len(&self) -> u64
        ensures len { result ≡ length self.now.entries }
        ensures history { IsHistory self.now }
    {
        self.entries.len() as u64
    }

    /// How many passes were given out. O(1).
    pub fn passes(&self) -> u64
        ensures { result ≡ self.now.passes }
    {
        self.passes
    }

    /// Gives out one more pass, and returns its number; none if 2^32 were given out. O(1).
    pub fn add_pass(&mut self) -> Option<u64>
        ensures given { IfSome result (λ number. (self.old.passes < 2 ^ 32)
            × (number ≡ self.old.passes + 1) × (self.new ≡ record self.old { passes = number })) }
        ensures full { result ≡ None → (self.old.passes ≡ 2 ^ 32) × (self.new ≡ self.old) }
        ensures history { IsHistory self.new }
    {
        if self.passes >= 1 << 32 {
            return None;
        }
        self.passes += 1;
        Some(self.passes)
    }

    /// [`FolderCore::scan_found`] for a pass. O(n) memory for the size n of what is found.
    pub fn scan_found(
        &mut self,
        pass: u64,
        name: &SafeName,
        expected: Option<&Version>,
        found: &Finding,
        moment: Moment,
    ) -> Result<Result<ScanAnswer, ScanRefusal>, AllocError>
        requires pass { (1 ≤ pass) × (pass ≤ self.old.passes) }
        requires found { IsTrue (is_recordable found.now.content) }
        ensures appends { Appends self.old pass
            (ScanFound name.now (option_copied expected.entry) found.now moment)
            (answered scan_value result) self.new }
        ensures history { IsHistory self.new }
    {
        let has_room = self.has_room(1);
        let change = found_change(name, expected, found, moment)?;
        let Some(change) = admit(
            &self.core,
            change,
            has_room,
            &mut self.entries,
            self.pulls,
            1,
        )?
        else {
            return Ok(Err(ScanRefusal::HistoryFull));
        };
        let answer = self.core.scan_found(name, expected, found, moment);
        append_scan(&mut self.entries, pass, change, answer)
    }

    /// [`FolderCore::scan_gone`] for a pass.
    pub fn scan_gone(
        &mut self,
        pass: u64,
        name: &SafeName,
        expected: Option<&Version>,
        moment: Moment,
    ) -> Result<Result<ScanAnswer, ScanRefusal>, AllocError>
        requires pass { (1 ≤ pass) × (pass ≤ self.old.passes) }
        ensures appends { Appends self.old pass
            (ScanGone name.now (option_copied expected.entry) moment)
            (answered scan_value result) self.new }
        ensures history { IsHistory self.new }
    {
        let has_room = self.has_room(1);
        let change = gone_change(name, expected, moment)?;
        let Some(change) = admit(
            &self.core,
            change,
            has_room,
            &mut self.entries,
            self.pulls,
            1,
        )?
        else {
            return Ok(Err(ScanRefusal::HistoryFull));
        };
        let answer = self.core.scan_gone(name, expected, moment);
        append_scan(&mut self.entries, pass, change, answer)
    }

    /// [`FolderCore::index_full`] for a pass. The history keeps the records too; they share their memory. A full history is never
    /// out of memory.
    pub fn index_full(
        &mut self,
        pass: u64,
        device: DeviceId,
        records: Items<Record>,
    ) -> Result<Result<(), HistoryFull>, AllocError>
        requires pass { (1 ≤ pass) × (pass ≤ self.old.passes) }
        requires device { device ≢ self.old.opening.me }
        ensures appends { Appends self.old pass (IndexFull device records)
            (answered index_value result) self.new }
        ensures history { IsHistory self.new }
        ensures full { self.old.limit < length self.old.entries + len (end self.old).pulls + 1 →
            IsOk result }
    {
        if !self.has_room(1) {
            return Ok(Err(HistoryFull));
        }
        make_room(&mut self.entries, self.pulls, 1)?;
        let change = Change::IndexFull {
            device,
            records: records.copy()?,
        };
        self.core.index_full(device, records)?;
        append(&mut self.entries, pass, change, Answer::Applied);
        Ok(Ok(()))
    }

    /// [`FolderCore::index_more`] for a pass. The history keeps the records too; they share their memory. A full history is never
    /// out of memory.
    pub fn index_more(
        &mut self,
        pass: u64,
        device: DeviceId,
        records: Items<Record>,
    ) -> Result<Result<(), HistoryFull>, AllocError>
        requires pass { (1 ≤ pass) × (pass ≤ self.old.passes) }
        requires device { device ≢ self.old.opening.me }
        ensures appends { Appends self.old pass (IndexMore device records)
            (answered index_value result) self.new }
        ensures history { IsHistory self.new }
        ensures full { self.old.limit < length self.old.entries + len (end self.old).pulls + 1 →
            IsOk result }
    {
        if !self.has_room(1) {
            return Ok(Err(HistoryFull));
        }
        make_room(&mut self.entries, self.pulls, 1)?;
        let change = Change::IndexMore {
            device,
            records: records.copy()?,
        };
        self.core.index_more(device, records)?;
        append(&mut self.entries, pass, change, Answer::Applied);
        Ok(Ok(()))
    }

    /// [`FolderCore::forget`] for a pass. A full history is never out of memory.
    pub fn forget(
        &mut self,
        pass: u64,
        device: DeviceId,
    ) -> Result<Result<(), HistoryFull>, AllocError>
        requires pass { (1 ≤ pass) × (pass ≤ self.old.passes) }
        requires device { device ≢ self.old.opening.me }
        ensures appends { Appends self.old pass (Forget device)
            (answered index_value result) self.new }
        ensures history { IsHistory self.new }
        ensures full { self.old.limit < length self.old.entries + len (end self.old).pulls + 1 →
            IsOk result }
    {
        if !self.has_room(1) {
            return Ok(Err(HistoryFull));
        }
        make_room(&mut self.entries, self.pulls, 1)?;
        self.core.forget(device)?;
        append(
            &mut self.entries,
            pass,
            Change::Forget { device },
            Answer::Applied,
        );
        Ok(Ok(()))
    }

    /// [`FolderCore::begin_pull`] for a pass. A pull that would begin is refused with `HistoryFull` if there is no room for its
    /// entry and for the one that will end it. Returns `Err` only if out of memory; then no pull was begun. O(n) memory for n
    /// bytes of the name, beside what the folder takes; the records share their memory.
    pub fn begin_pull(
        &mut self,
        pass: u64,
        name: &SafeName,
    ) -> Result<Result<BeginAnswer, HistoryFull>, AllocError>
        requires pass { (1 ≤ pass) × (pass ≤ self.old.passes) }
        ensures appends { Appends self.old pass (BeginPull name.now)
            (answered begin_value result) self.new }
        ensures history { IsHistory self.new }
    {
        let has_room = self.has_room(2);
        let Some(change) = admit_begin(&self.core, name, has_room, &mut self.entries, self.pulls)?
        else {
            return Ok(Err(HistoryFull));
        };
        let (answer, copy) = begin(&mut self.core, name)?;
        self.pulls += append_begin(&mut self.entries, pass, change, copy);
        Ok(Ok(answer))
    }

    /// [`FolderCore::enter_commit`] for a pass. Every ticket but a stray one comes back where it fails. O(n) memory for n bytes
    /// of the name, beside what the folder takes; the records share their memory.
    pub fn enter_commit(
        &mut self,
        pass: u64,
        ticket: PullTicket,
    ) -> Result<Result<PullCommit, EnterRefusal>, EnterAllocError>
        requires pass { (1 ≤ pass) × (pass ≤ self.old.passes) }
        ensures appends { Appends self.old pass (EnterCommit ticket)
            (answered enter_value result) self.new }
        ensures given_back { IfOk result (λ entered. IfErr entered (GivesBack ticket)) }
        ensures out_of_memory { IfErr result (λ refused. refused.0 ≡ ticket) }
        ensures history { IsHistory self.new }
    {
        let has_room = self.has_room(1);
        let Ok((asked, copy)) = two_copies(&ticket.info) else {
            return Err(EnterAllocError(ticket));
        };
        let change = Change::EnterCommit { ticket: asked };
        let change = match admit(
            &self.core,
            change,
            has_room,
            &mut self.entries,
            self.pulls,
            1,
        ) {
            Ok(Some(change)) => change,
            Ok(None) => return Ok(Err(EnterRefusal::HistoryFull(ticket))),
            Err(AllocError) => return Err(EnterAllocError(ticket)),
        };
        let PullTicket { inner, info } = ticket;
        let entered = self.core.enter_commit(inner);
        append_enter(&mut self.entries, pass, change, copy, info, entered)
    }

    /// [`FolderCore::finish`] for a pass. Does not allocate; the history keeps what was assembled.
    pub fn finish(
        &mut self,
        pass: u64,
        commit: PullCommit,
        assembled: Assembled,
    ) -> Result<u64, Stray>
        requires pass { (1 ≤ pass) × (pass ≤ self.old.passes) }
        requires assembled { assembled ≡ commit.target }
        ensures appends { Appends self.old pass (Finish commit assembled)
            (Some (finish_answer result)) self.new }
        ensures assembled { IsAssembled assembled }
        ensures history { IsHistory self.new }
    {
        let PullCommit { inner, info } = commit;
        let sequence = self.core.finish(inner, &assembled)?;
        self.pulls -= 1;
        append(
            &mut self.entries,
            pass,
            Change::Finish {
                commit: info,
                assembled,
            },
            Answer::Done(sequence),
        );
        Ok(sequence)
    }

    /// [`FolderCore::give_up`] for a pass. Does not allocate.
    pub fn give_up(&mut self, pass: u64, ticket: PullTicket) -> bool
        requires pass { (1 ≤ pass) × (pass ≤ self.old.passes) }
        ensures appends { Appends self.old pass (GiveUp ticket)
            (Some (close_answer result)) self.new }
        ensures history { IsHistory self.new }
    {
        let PullTicket { inner, info } = ticket;
        let is_closed = self.core.give_up(inner);
        if is_closed {
            self.pulls -= 1;
            append(
                &mut self.entries,
                pass,
                Change::GiveUp { ticket: info },
                Answer::Closed,
            );
        }
        is_closed
    }

    /// [`FolderCore::abort`] for a pass. Does not allocate.
    pub fn abort(&mut self, pass: u64, commit: PullCommit) -> bool
        requires pass { (1 ≤ pass) × (pass ≤ self.old.passes) }
        ensures appends { Appends self.old pass (Abort commit) (Some (close_answer result))
            self.new }
        ensures history { IsHistory self.new }
    {
        let PullCommit { inner, info } = commit;
        let is_closed = self.core.abort(inner);
        if is_closed {
            self.pulls -= 1;
            append(
                &mut self.entries,
                pass,
                Change::Abort { commit: info },
                Answer::Closed,
            );
        }
        is_closed
    }

    /// Whether the history leads from the folder that was opened to the one that is kept, by [`replays`]. It does, so this is for
    /// whoever doubts it. Returns `Err` only if out of memory. O(n + c) time and memory for n records, which share their memory,
    /// and the entries' changes made once more at their cost c on a plain folder.
    pub fn verify(&self) -> Result<bool, AllocError>
        ensures { IfOk result (λ yes. yes ≡ true) }
    {
        let end = self.core.plain_copy()?;
        replays(&self.opening, self.entries.as_slice(), self.passes, &end)
    }

    // Whether so many entries more have room, beside those that end the open pulls. O(1).
    fn has_room(&self, more: u64) -> bool
        ensures { result ≡ nat_le (length self.now.entries + len
            (end self.now).pulls + more) self.now.limit }
    {
        self.limit - self.pulls - self.entries.len() as u64 >= more
    }
}

// Makes room for so many entries more, beside those that end the open pulls. Returns `Err` only if out of memory.
fn make_room(entries: &mut Vec<Entry>, pulls: u64, more: u64) -> Result<(), AllocError>
    requires { pulls + more < 2 ^ 64 }
    ensures items { entries.new.items ≡ entries.old.items }
    ensures kept { vec_capacity entries.old ≤ vec_capacity entries.new }
    ensures room { IsOk result → length entries.old.items + pulls + more
        ≤ vec_capacity entries.new }
{
    entries.reserve((pulls + more) as usize)
}

// Returns the change if the folder is to be asked: if the history has room for its entry, which is made then, or if the
// folder does not accept it. Returns `Err` only if out of memory.
fn admit<C: FolderCore>(
    core: &C,
    change: Change,
    has_room: bool,
    entries: &mut Vec<Entry>,
    pulls: u64,
    more: u64,
) -> Result<Option<Change>, AllocError>
    requires { pulls + more < 2 ^ 64 }
    ensures items { entries.new.items ≡ entries.old.items }
    ensures kept { vec_capacity entries.old ≤ vec_capacity entries.new }
    ensures same { IfOk result (λ admitted. IfSome admitted (λ same. same ≡ change)) }
    ensures admitted { (c : _) → result ≡ Ok (Some c) →
        is_accepted (step (C.state core.now) change).0 ≡ true → (has_room ≡ true)
        × (length entries.old.items + pulls + more ≤ vec_capacity entries.new) }
    ensures refused { result ≡ Ok None → (has_room ≡ false)
        × (is_accepted (step (C.state core.now) change).0 ≡ true) }
{
    if has_room {
        make_room(entries, pulls, more)?;
        return Ok(Some(change));
    }
    if core.accepts(&change) {
        return Ok(None);
    }
    Ok(Some(change))
}

// Admits the begin of a pull, whose entry comes with one that ends it.
fn admit_begin<C: FolderCore>(
    core: &C,
    name: &SafeName,
    has_room: bool,
    entries: &mut Vec<Entry>,
    pulls: u64,
) -> Result<Option<Change>, AllocError>
    requires { pulls + 2 < 2 ^ 64 }
    ensures items { entries.new.items ≡ entries.old.items }
    ensures kept { vec_capacity entries.old ≤ vec_capacity entries.new }
    ensures same { IfOk result (λ admitted.
        IfSome admitted (λ change. change ≡ BeginPull name.now)) }
    ensures admitted { (c : _) → result ≡ Ok (Some c) →
        is_accepted (step (C.state core.now) (BeginPull name.now)).0 ≡ true → (has_room ≡ true)
        × (length entries.old.items + pulls + 2 ≤ vec_capacity entries.new) }
    ensures refused { result ≡ Ok None → (has_room ≡ false)
        × (is_accepted (step (C.state core.now) (BeginPull name.now)).0 ≡ true) }
{
    let change = Change::BeginPull { name: name.copy()? };
    admit(core, change, has_room, entries, pulls, 2)
}

// Begins a pull in the folder. Returns the answer, and the entry's copy of the ticket if the pull is open then. Returns
// `Err` only if out of memory, and has then given up a pull that was begun.
fn begin<C: FolderCore>(
    core: &mut C,
    name: &SafeName,
) -> Result<(BeginAnswer, Option<PullInfo>), AllocError>
    ensures change { Changes (C.state core.old) (BeginPull name.now)
        (answered (λ begun. begin_value (Ok begun.0)) result) (C.state core.new) }
    ensures begun { IfOk result (λ begun.
        IfSome begun.1 (λ ticket. begin_value (Ok begun.0) ≡ Begun ticket)) }
    ensures other { IfOk result (λ begun. begun.1 ≡ None →
        is_accepted (begin_value (Ok begun.0)) ≡ false) }
{
    match core.begin_pull(name)? {
        folder_core::BeginAnswer::Begun(inner) => {
            let Ok((copy, info)) = two_infos(&inner) else {
                let _ = core.give_up(inner);
                return Err(AllocError);
            };
            Ok((BeginAnswer::Begun(PullTicket { inner, info }), Some(copy)))
        }
        folder_core::BeginAnswer::NotNeeded => Ok((BeginAnswer::NotNeeded, None)),
        folder_core::BeginAnswer::Busy => Ok((BeginAnswer::Busy, None)),
        folder_core::BeginAnswer::Unsupported => Ok((BeginAnswer::Unsupported, None)),
    }
}

// Appends the entry of an accepted change, for which there is room. Does not allocate.
fn append(entries: &mut Vec<Entry>, pass: u64, change: Change, answer: Answer)
    requires room { length entries.old.items < vec_capacity entries.old }
    ensures items { entries.new.items
        ≡ entries.old.items ++ (record { pass = pass; change = change; answer = answer }) ∷ [] }
    ensures capacity { vec_capacity entries.new ≡ vec_capacity entries.old }
{
    entries.push_reserved(Entry {
        pass,
        change,
        answer,
    });
}

// Appends the entry of a pull that began, if it is open then, and returns how many it opened.
fn append_begin(
    entries: &mut Vec<Entry>,
    pass: u64,
    change: Change,
    ticket: Option<PullInfo>,
) -> u64
    requires { IfSome ticket (λ _. length entries.old.items < vec_capacity entries.old) }
    ensures opened { result ≡ if is_some ticket then 1 else 0 }
    ensures appended { entries.new.items
        ≡ appended entries.old.items pass change (option_map Begun ticket) }
    ensures capacity { vec_capacity entries.new ≡ vec_capacity entries.old }
{
    let Some(ticket) = ticket else {
        return 0;
    };
    append(entries, pass, change, Answer::Begun(ticket));
    1
}

// Appends the entry of a scan, if it was recorded, and returns its answer.
fn append_scan(
    entries: &mut Vec<Entry>,
    pass: u64,
    change: Change,
    answer: Result<ScanAnswer, ScanFault>,
) -> Result<Result<ScanAnswer, ScanRefusal>, AllocError>
    requires { IfSome (scan_answer answer)
        (λ a. is_accepted a ≡ true → length entries.old.items < vec_capacity entries.old) }
    ensures answer { answered scan_value result ≡ scan_answer answer }
    ensures appended { entries.new.items
        ≡ appended entries.old.items pass change (scan_answer answer) }
    ensures capacity { vec_capacity entries.new ≡ vec_capacity entries.old }
{
    match answer {
        Ok(ScanAnswer::Recorded(sequence)) => {
            append(entries, pass, change, Answer::Recorded(sequence));
            Ok(Ok(ScanAnswer::Recorded(sequence)))
        }
        Ok(answer) => Ok(Ok(answer)),
        Err(ScanFault::CounterFull) => Ok(Err(ScanRefusal::CounterFull)),
        Err(ScanFault::SequenceFull) => Ok(Err(ScanRefusal::SequenceFull)),
        Err(ScanFault::OutOfMemory) => Err(AllocError),
    }
}

// Appends the entry of a commit, if it was entered, and returns the answer.
fn append_enter(
    entries: &mut Vec<Entry>,
    pass: u64,
    change: Change,
    copy: PullInfo,
    info: PullInfo,
    entered: Result<folder_core::Commit, folder_core::EnterFault>,
) -> Result<Result<PullCommit, EnterRefusal>, EnterAllocError>
    requires room { IfSome (enter_answer entered)
        (λ a. is_accepted a ≡ true → length entries.old.items < vec_capacity entries.old) }
    requires same { IfOk entered (λ commit. (commit ≡ copy) × (commit ≡ info)) }
    requires given_back { IfErr entered (GivesBackOpen info) }
    ensures answer { answered enter_value result ≡ enter_answer entered }
    ensures given_back { IfOk result (λ entered. IfErr entered (GivesBack info)) }
    ensures out_of_memory { IfErr result (λ refused. refused.0 ≡ info) }
    ensures appended { entries.new.items
        ≡ appended entries.old.items pass change (enter_answer entered) }
    ensures capacity { vec_capacity entries.new ≡ vec_capacity entries.old }
{
    Ok(Err(match entered {
        Ok(inner) => {
            append(entries, pass, change, Answer::Entered(copy));
            return Ok(Ok(PullCommit { inner, info }));
        }
        Err(folder_core::EnterFault::Stray) => EnterRefusal::Stray,
        Err(folder_core::EnterFault::LocalMoved(inner)) => {
            EnterRefusal::LocalMoved(PullTicket { inner, info })
        }
        Err(folder_core::EnterFault::Superseded(inner)) => {
            EnterRefusal::Superseded(PullTicket { inner, info })
        }
        Err(folder_core::EnterFault::SequenceFull(inner)) => {
            EnterRefusal::SequenceFull(PullTicket { inner, info })
        }
        Err(folder_core::EnterFault::OutOfMemory(inner)) => {
            return Err(EnterAllocError(PullTicket { inner, info }));
        }
    }))
}

fn two_copies(info: &PullInfo) -> Result<(PullInfo, PullInfo), AllocError>
    ensures { IfOk result (λ copies. (copies.0 ≡ info.now) × (copies.1 ≡ info.now)) }
{
    Ok((info.copy()?, info.copy()?))
}

fn two_infos(ticket: &folder_core::Ticket) -> Result<(PullInfo, PullInfo), AllocError>
    ensures { IfOk result (λ infos. (infos.0 ≡ ticket.now) × (infos.1 ≡ ticket.now)) }
{
    let info = info_of(ticket)?;
    Ok((info.copy()?, info))
}

fn info_of(ticket: &folder_core::Ticket) -> Result<PullInfo, AllocError>
    ensures { IfOk result (λ info. info ≡ ticket.now) }
{
    let base = match ticket.base() {
        Some(record) => Some(record.copy()?),
        None => None,
    };
    Ok(PullInfo {
        number: ticket.number(),
        name: ticket.name().copy()?,
        base,
        target: ticket.target().copy()?,
    })
}

fn found_change(
    name: &SafeName,
    expected: Option<&Version>,
    found: &Finding,
    moment: Moment,
) -> Result<Change, AllocError>
    ensures { IfOk result (λ change. change
        ≡ ScanFound name.now (option_copied expected.entry) found.now moment) }
{
    Ok(Change::ScanFound {
        name: name.copy()?,
        expected: copied_version(expected)?,
        found: found.copy()?,
        moment,
    })
}

fn gone_change(
    name: &SafeName,
    expected: Option<&Version>,
    moment: Moment,
) -> Result<Change, AllocError>
    ensures { IfOk result (λ change. change
        ≡ ScanGone name.now (option_copied expected.entry) moment) }
{
    Ok(Change::ScanGone {
        name: name.copy()?,
        expected: copied_version(expected)?,
        moment,
    })
}

fn copied_version(version: Option<&Version>) -> Result<Option<Version>, AllocError>
    ensures { IfOk result (λ copy. copy ≡ option_copied version.entry) }
{
    match version {
        Some(version) => Ok(Some(version.copy()?)),
        None => Ok(None),
    }
}
