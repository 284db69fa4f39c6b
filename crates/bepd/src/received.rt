//! What a peer's stream announces of one folder.
ghost use Rattle.std.specs.Prelude.{◌≡◌, ◌++◌, ◌∷◌, [], ◌+◌, ◌<◌, ◌≤◌, ◌^◌, List, IfOk, OnOk, Some, None, bytes_eq, if◌then◌else◌, length};
ghost use Rattle.bep_frames.specs.declared.frame.Frame.{Frame as AnyFrame};
ghost use Rattle.bepd.specs.Received.{own_device, peer, kept_records, skipped_records, frame_files};
ghost use Rattle.bepd.specs.Progress.{IsAnnounced, IsReceived};

use bep_frames::{Frame, Message};
use bep_messages::{FileInfo, Items, Text};
use folder_core::FolderCore;
use std::alloc::{AllocError, Global};
use std::collections::VecDeque;
use sync_names::NameFault;
use sync_record::{DeviceId, Record};

/// This device, as a listing knows it: 32 bytes of 0.
pub(crate) fn own_device() -> DeviceId
    ensures { result ≡ own_device }
{
    DeviceId::new([0; 32])
}

/// The device that sends the stream: 32 bytes of 1.
fn peer() -> DeviceId
    ensures { result ≡ peer }
{
    DeviceId::new([1; 32])
}

/// A folder after the frames that were taken, and how many records were skipped.
#[derive(Debug, Drop)]
pub(crate) struct Received<F> {
    pub(crate) folder: F,
    /// How many records were skipped, since their names aren't safe.
    pub(crate) skipped: u64,
}

impl<F: FolderCore> Received<F> {
    /// Nothing was received of the folder.
    pub(crate) fn new(folder: F) -> Received<F>
        ensures folder { result.folder ≡ folder }
        ensures skipped { result.skipped ≡ 0 }
    {
        Received { folder, skipped: 0 }
    }

    /// Takes the next frame of the stream. Only an Index or an IndexUpdate of the folder changes anything. Returns `Err`
    /// only if out of memory, and then a part of the frame may have been taken.
    pub(crate) fn take_frame(
        &mut self,
        alloc: Global,
        folder: &str,
        frame: Frame,
    ) -> Result<(), AllocError>
        requires me { (F.state self.old.folder).me ≡ own_device }
        requires room { self.old.skipped + length (frame_files folder.now frame) < 2 ^ 64 }
        ensures received { OnOk result ((frames : List AnyFrame) →
            IsReceived folder.now frames (F.state self.old.folder) self.old.skipped →
            IsReceived folder.now (frames ++ frame ∷ []) (F.state self.new.folder) self.new.skipped) }
        ensures me { OnOk result ((F.state self.new.folder).me ≡ own_device) }
        ensures count { OnOk result (self.new.skipped ≤ self.old.skipped + length (frame_files folder.now frame)) }
    {
        match announced(frame, folder) {
            Some(IndexMessage::All(files)) => {
                let records = keep(alloc, files, &mut self.skipped)?;
                self.folder.index_full(peer(), records)?;
            }
            Some(IndexMessage::More(files)) => {
                let records = keep(alloc, files, &mut self.skipped)?;
                self.folder.index_more(peer(), records)?;
            }
            None => {}
        }
        Ok(())
    }
}

/// What a message announces of a folder.
#[derive(Debug, Drop)]
enum IndexMessage {
    /// All that the device has.
    All(Items<FileInfo>),
    /// What it has besides.
    More(Items<FileInfo>),
}

/// What the frame announces of the folder, if anything.
fn announced(frame: Frame, folder: &str) -> Option<IndexMessage>
    ensures { IsAnnounced result folder.now frame }
{
    match frame {
        Frame::Message(message) => match message {
            Message::Index(index) => {
                let files = files_of(index.folder, index.files, folder)?;
                Some(IndexMessage::All(files))
            }
            Message::IndexUpdate(update) => {
                let files = files_of(update.folder, update.files, folder)?;
                Some(IndexMessage::More(files))
            }
            _other => None,
        },
        _other => None,
    }
}

/// The files of a message with this id, where it is that of the folder.
fn files_of(id: Text, files: Items<FileInfo>, folder: &str) -> Option<Items<FileInfo>>
    ensures { result ≡ if bytes_eq id folder.now then Some files else None }
{
    if id.as_str() != folder {
        return None;
    }
    Some(files)
}

/// The records whose names are safe, in order. The other records are counted. Returns `Err` only if out of memory. O(m)
/// for m records, and what the records have.
fn keep(
    alloc: Global,
    files: Items<FileInfo>,
    skipped: &mut u64,
) -> Result<Items<Record>, AllocError>
    requires room { skipped.old + length files < 2 ^ 64 }
    ensures kept { IfOk result (λ records. records ≡ kept_records files) }
    ensures count { OnOk result (skipped.new ≡ skipped.old + length (skipped_records files)) }
{
    let mut files = VecDeque::from_vec(files.into_vec());
    let mut records = Vec::with_capacity(alloc, files.len())?;
    while let Some(info) = files.pop_front() {
        match Record::from_info(alloc, info) {
            Ok(record) => {
                records.push(record)?;
            }
            Err(NameFault::OutOfMemory) => return Err(AllocError),
            Err(_) => *skipped += 1,
        }
    }
    Ok(Items::from_vec(records))
}
