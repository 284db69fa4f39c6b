//! The journal beside the state file, which is written while a node runs.
ghost use Rattle.std.specs.Prelude.{◌≡◌, ◌⊎◌, ◌++◌, ◌+◌, [], None, length, IfOk, OnOk};
ghost use Rattle.node_journal.specs.Format.{frame_bytes, header_bytes};
ghost use Rattle.node_saver.specs.Frames.{closing_frame};
ghost use Rattle.bepd_run.specs.Begun.{Begins, IsPlansFrame};

use crate::failure::RunFailure;
use crate::files::{StateFiles, directory_of, write_behind};
use crate::last_run::{FolderPlans, FoundJournal, LastRun, StatePaths, read_last_run};
use crate::naming::file_failure;
use crate::plans::{open_in, written_plans};
use bep_messages::{Copied, Text};
use node_journal::{Frame, JournalHeader, push_frame, push_header};
use node_saver::{DiskJournal, FrameJournal, SaveFault, SavedFolder, closing_frame, plans_frame};
use node_state::{State, write_state};
use sha2::{Digest, Sha256};
use std::alloc::{AllocError, Global};
use std::fs::File;
use std::io;
use sync_record::DeviceId;

/// How many bytes a journal has at least before it is folded into the state.
const FOLD_BYTES: u64 = 1_048_576;

/// How often it isn't asked for the whole state after that could not be written, where what counted is gone.
const RESTS: u32 = 4;

/// The journal of a node, in the file `<state>.journal`. It is folded into the state once it has more bytes than that, so that for each byte appended at most
/// three are written.
#[derive(Drop)]
pub(crate) struct StateJournal<'a, R> {
    files: &'a R,
    alloc: Global,
    device: DeviceId,
    paths: &'a StatePaths<'a>,
    header: JournalHeader,
    // Where it is written; `None` after a write that could not be taken back, or was not known to be on the disk: then another file is made.
    file: Option<File>,
    // How many of its bytes count, and what is to follow them.
    len: u64,
    waiting: Vec<u8>,
    // From how many bytes on it is folded.
    fold_at: u64,
    // Which file could not be written last, and why.
    trouble: Option<Text>,
    // Whether what counted is gone from the disk.
    is_lost: bool,
    // How often the whole state isn't asked for, though it is lost.
    rests: u32,
    // The lock of the state, where the run's own is gone from the disk.
    lock: Option<File>,
}

impl<'a, R: StateFiles> StateJournal<'a, R> {
    /// One that goes on behind what was found of it.
    pub(crate) fn behind(
        files: &'a R,
        alloc: Global,
        device: DeviceId,
        paths: &'a StatePaths<'a>,
        found: &FoundJournal,
        state_len: u64,
    ) -> Result<StateJournal<'a, R>, RunFailure> {
        let file = match open_found(files, paths, found) {
            Ok(file) => file,
            Err(error) => return Err(file_failure(alloc, "state", paths.journal.as_str(), error)),
        };
        Ok(StateJournal {
            files,
            alloc,
            device,
            paths,
            header: found.header,
            file: Some(file),
            len: found.len,
            waiting: Vec::new(alloc),
            fold_at: state_len.max(FOLD_BYTES),
            trouble: None,
            is_lost: false,
            rests: 0,
            lock: None,
        })
    }

    /// A new one, with a new state file and these plans.
    pub(crate) fn anew(
        files: &'a R,
        alloc: Global,
        device: DeviceId,
        paths: &'a StatePaths<'a>,
        state: &State,
        plans: &[FolderPlans],
    ) -> Result<StateJournal<'a, R>, RunFailure> {
        let mut journal = StateJournal {
            files,
            alloc,
            device,
            paths,
            header: JournalHeader {
                device,
                state_digest: Sha256::digest(b""),
            },
            file: None,
            len: 0,
            waiting: Vec::new(alloc),
            fold_at: FOLD_BYTES,
            trouble: None,
            is_lost: false,
            rests: 0,
            lock: None,
        };
        journal.replace(state, plans)?;
        Ok(journal)
    }

    /// Puts a new state file in place, and then a new journal, which has these plans. A start finds the one pair or the other, whenever it is cut off: the new
    /// journal is on the disk before the state that it continues is in place, and is then found under its first name.
    pub(crate) fn replace(
        &mut self,
        state: &State,
        plans: &[FolderPlans],
    ) -> Result<(), RunFailure> {
        let (new_state, new_journal) = (
            self.paths.new_state.as_str(),
            self.paths.new_journal.as_str(),
        );
        let mut bytes = Vec::new(self.alloc);
        write_state(state, &mut bytes)?;
        let header = JournalHeader {
            device: self.device,
            state_digest: Sha256::digest(bytes.as_slice()),
        };
        let begun = begun_journal(self.alloc, &header, plans)?;
        let made = match self.files.make_file(new_state, bytes.as_slice()) {
            Ok(_) => self.files.make_file(new_journal, begun.as_slice()),
            Err(error) => Err(error),
        };
        let file = match made {
            Ok(file) => file,
            Err(error) => {
                self.files.remove(new_state);
                self.files.remove(new_journal);
                return Err(file_failure(self.alloc, "state", new_state, error));
            }
        };
        // (if this fails, it isn't known which state is in place, so what is written next is written anew)
        self.file = None;
        if let Err(error) = self.files.put_in_place(new_state, self.paths.state) {
            return Err(file_failure(self.alloc, "state", self.paths.state, error));
        }
        self.header = header;
        self.is_lost = false;
        self.file = Some(file);
        self.len = begun.len() as u64;
        self.fold_at = FOLD_BYTES.max(bytes.len() as u64);
        // (where this fails, the next start finds it under its first name)
        let _ = self
            .files
            .put_in_place(new_journal, self.paths.journal.as_str());
        Ok(())
    }

    /// Puts the whole state in place where what counted is gone. Returns whether it was gone, and counts now; where it can't be written, it is tried again later.
    pub(crate) fn bring_back(&mut self, state: &State, plans: &[FolderPlans]) -> bool {
        if !self.is_lost {
            return false;
        }
        match self.replace(state, plans) {
            Ok(()) => {
                // (where its file is still there, the run has it)
                if let Ok(lock) = self.files.lock_file(self.paths.lock.as_str()) {
                    self.lock = Some(lock);
                }
                true
            }
            Err(_) => {
                self.rests = RESTS;
                false
            }
        }
    }

    // Notes whether what counted is gone: the file was removed.
    fn look_for_file(&mut self) {
        if let Some(file) = &self.file {
            if self.files.is_removed(file, self.paths.journal.as_str()) {
                self.is_lost = true;
            }
        }
    }

    // Writes the state and the journal on the disk anew, as one state. Fails where they don't belong together any more.
    fn fold_all(&mut self) -> Result<(), RunFailure> {
        let LastRun {
            state,
            plans,
            journal,
            ..
        } = read_last_run(self.files, self.alloc, self.device, self.paths)?;
        if journal.is_none() {
            self.is_lost = true;
            return Err(RunFailure::ReadOrWrite);
        }
        let plans = open_in(self.alloc, &state, plans)?;
        self.replace(&state, plans.as_slice())
    }

    // Makes another file, if there is none. What waited for the one before is left out.
    fn have_file(&mut self) -> Result<(), SaveFault>
        ensures { OnOk result ((self.new.waiting.items ≡ self.old.waiting.items)
            ⊎ ((self.old.file ≡ None) × (self.new.waiting.items ≡ []))) }
    {
        if self.file.is_some() {
            return Ok(());
        }
        if let Err(failure) = self.fold_all() {
            self.trouble = if self.is_lost {
                removed(self.alloc, self.paths.journal.as_str(), NO_PLACE)
            } else {
                about_of(failure)
            };
            return Err(SaveFault::Refused);
        }
        self.waiting.clear();
        Ok(())
    }

    // Adds a frame to what waits, as of the place where it will stand.
    fn push_waiting(&mut self, frame: &Frame) -> Result<(), SaveFault>
        ensures { OnOk result (self.new.waiting.items
            ≡ self.old.waiting.items ++ frame_bytes (header_bytes self.new.header) (self.new.len + length self.old.waiting.items) frame.now) }
    {
        let Some(offset) = self.len.checked_add(self.waiting.len() as u64) else {
            return Err(SaveFault::Refused);
        };
        match push_frame(&self.header, offset, frame, &mut self.waiting) {
            Ok(()) => Ok(()),
            Err(_) => Err(SaveFault::OutOfMemory),
        }
    }

    // What is to follow, closed; written behind what counts.
    fn write_waiting(&mut self) -> Result<(), SaveFault> {
        let closing = closing_frame(self.alloc);
        self.append(&closing)?;
        let path = self.paths.journal.as_str();
        let Some(file) = &mut self.file else {
            return Err(SaveFault::Refused);
        };
        if self.files.is_removed(file, path) {
            self.is_lost = true;
            self.trouble = removed(self.alloc, path, NO_PLACE);
            return Err(SaveFault::Refused);
        }
        if let Err(error) = write_behind(file, self.len, self.waiting.as_slice()) {
            self.trouble = about_of(file_failure(self.alloc, "state", path, error));
            self.file = None;
            return Err(SaveFault::Refused);
        }
        self.len = self.len.saturating_add(self.waiting.len() as u64);
        Ok(())
    }
}

impl<R: StateFiles> FrameJournal for StateJournal<'_, R> {
    ghost use Rattle.std.specs.Prelude.{◌≡◌, ◌⊎◌, ◌++◌, ◌+◌, ℕ, [], List, None, length};
    ghost use Rattle.node_journal.specs.Format.{frame_bytes, header_bytes};

    // Its bytes follow what waits, as of the place in the file where they will stand. Only where there was no file, what waited is left out: another one is
    // made then, which has none of it.
    ghost appends = { λ old frame new.
        (before : List ℕ) × ((before ≡ old.waiting.items) ⊎ ((old.file ≡ None) × (before ≡ [])))
        × (new.waiting.items ≡ before ++ frame_bytes (header_bytes new.header) (new.len + length before) frame) };

    fn append(&mut self, frame: &Frame) -> Result<(), SaveFault> {
        self.have_file()?;
        self.push_waiting(frame)
    }
}

impl<R: StateFiles> DiskJournal for StateJournal<'_, R> {
    fn sync(&mut self) -> Result<(), SaveFault> {
        let written = self.write_waiting();
        self.waiting.clear();
        written
    }

    fn take_back(&mut self) {
        self.waiting.clear();
    }

    fn fold(&mut self) {
        if self.len > self.fold_at && self.fold_all().is_err() {
            self.fold_at = self.len.saturating_add(FOLD_BYTES);
        }
    }

    fn is_gone(&mut self) -> bool {
        self.look_for_file();
        if !self.is_lost || !self.files.is_directory(directory_of(self.paths.state)) {
            return false;
        }
        if self.rests > 0 {
            self.rests -= 1;
            return false;
        }
        self.trouble = removed(self.alloc, self.paths.journal.as_str(), A_PLACE);
        true
    }

    fn trouble(&self) -> Option<&str> {
        match &self.trouble {
            Some(about) => Some(about.as_str()),
            None => None,
        }
    }
}

// The journal at the path was removed, and what follows. (Nothing is told of it if out of memory.)
fn removed(alloc: Global, path: &str, what: &str) -> Option<Text> {
    match format!(in alloc; "state {path}: it was removed: {what}") {
        Ok(about) => Some(Text::from_string(about)),
        Err(_) => None,
    }
}

// What to do where the directory of a state was removed.
const NO_PLACE: &str =
    "see that its directory is there: the whole state is written then, soon or at the end";

// What is done where it is there.
const A_PLACE: &str = "the node begins anew, and writes the whole state";

// Which file a failure is of, and why, where it says that.
fn about_of(failure: RunFailure) -> Option<Text> {
    match failure {
        RunFailure::File(about) => Some(about),
        _ => None,
    }
}

// Opens the journal that was found, under its own name.
fn open_found<R: StateFiles>(
    files: &R,
    paths: &StatePaths,
    found: &FoundJournal,
) -> io::Result<File> {
    if found.is_new {
        files.put_in_place(paths.new_journal.as_str(), paths.journal.as_str())?;
    }
    files.open_behind(paths.journal.as_str(), found.len)
}

// The bytes of a journal that begins with these plans.
fn begun_journal(
    alloc: Global,
    header: &JournalHeader,
    plans: &[FolderPlans],
) -> Result<Vec<u8>, RunFailure>
    ensures { IfOk result (λ bytes. Begins header.now plans.now bytes.items) }
{
    let mut bytes = Vec::new(alloc);
    push_header(header, &mut bytes)?;
    for folder in plans {
        let frame = frame_of(alloc, folder)?;
        push(header, &frame, &mut bytes)?;
    }
    if plans.is_empty() {
        return Ok(bytes);
    }
    push_closing(alloc, header, &mut bytes)?;
    Ok(bytes)
}

// Appends the frame that ends a batch.
fn push_closing(
    alloc: Global,
    header: &JournalHeader,
    bytes: &mut Vec<u8>,
) -> Result<(), RunFailure>
    ensures { OnOk result (bytes.new.items
        ≡ bytes.old.items ++ frame_bytes (header_bytes header.now) (length bytes.old.items) closing_frame) }
{
    push(header, &closing_frame(alloc), bytes)
}

// The frame of a folder's plans.
fn frame_of(alloc: Global, folder: &FolderPlans) -> Result<Frame, AllocError>
    ensures { IfOk result (λ frame. IsPlansFrame folder.now frame) }
{
    let saved = SavedFolder {
        id: folder.id.copy()?,
        index_id: folder.index_id,
    };
    plans_frame(alloc, &saved, written_plans(alloc, &folder.plans)?)
}

// Appends a frame.
fn push(header: &JournalHeader, frame: &Frame, bytes: &mut Vec<u8>) -> Result<(), RunFailure>
    ensures { OnOk result (bytes.new.items
        ≡ bytes.old.items ++ frame_bytes (header_bytes header.now) (length bytes.old.items) frame.now) }
{
    let offset = bytes.len() as u64;
    match push_frame(header, offset, frame, bytes) {
        Ok(()) => Ok(()),
        Err(_) => Err(RunFailure::OutOfMemory),
    }
}
