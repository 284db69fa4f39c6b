//! Pages of one peer's records that go to the other.
use crate::link::{FOLDER, said};
use crate::peer::{Peer, device_of};
use crate::refused::Refused;
use bep_frames::Message;
use bep_messages::{FileInfo, Index, IndexUpdate, Items, Text};
use bep_session::{Event, Session};
use folder_calls::{FolderCalls, HistoryFull};
use index_sender::{Page, file_infos};
use std::alloc::{AllocError, Global};
use std::collections::VecDeque;
use sync_names::NameFault;
use sync_record::{DeviceId, Record};
use sync_version::Moment;

/// Sends all pages of one peer to the other, and returns how many records they have.
pub(crate) fn send_all(
    alloc: Global,
    from: &mut Peer,
    from_session: &mut Session,
    to: &mut Peer,
    to_session: &mut Session,
    moment: Moment,
) -> Result<u64, Refused> {
    let device = device_of(from.side);
    let mut sent = 0u64;
    for _ in 0..u64::MAX {
        let Some(page) = next_page(alloc, from)? else {
            break;
        };
        let frame = said(alloc, from_session, &page.message, moment)?;
        let events = to_session.feed(&frame, moment)?;
        take_events(alloc, device, to, events)?;
        sent = sent.saturating_add(page.count);
    }
    Ok(sent)
}

// A page as a message.
#[derive(Drop)]
struct Sent {
    message: Message,
    // How many records it has.
    count: u64,
}

// The next page, if there is one.
fn next_page(alloc: Global, from: &mut Peer) -> Result<Option<Sent>, AllocError> {
    match from.sender.next_page(&mut from.calls)? {
        Page::Nothing => Ok(None),
        Page::Index(records) => Ok(Some(Sent {
            message: index_of(alloc, &records)?,
            count: records.as_slice().len() as u64,
        })),
        Page::IndexUpdate(records) => Ok(Some(Sent {
            message: update_of(alloc, &records)?,
            count: records.as_slice().len() as u64,
        })),
    }
}

fn index_of(alloc: Global, records: &Items<Record>) -> Result<Message, AllocError> {
    Ok(Message::Index(Index {
        folder: Text::from_str(alloc, FOLDER)?,
        files: file_infos(alloc, records.as_slice())?,
    }))
}

fn update_of(alloc: Global, records: &Items<Record>) -> Result<Message, AllocError> {
    Ok(Message::IndexUpdate(IndexUpdate {
        folder: Text::from_str(alloc, FOLDER)?,
        files: file_infos(alloc, records.as_slice())?,
    }))
}

// Takes what the other peer announces.
fn take_events(
    alloc: Global,
    device: DeviceId,
    to: &mut Peer,
    events: Vec<Event>,
) -> Result<(), Refused> {
    for event in events {
        take_event(alloc, device, to, event)?;
    }
    Ok(())
}

fn take_event(alloc: Global, device: DeviceId, to: &mut Peer, event: Event) -> Result<(), Refused> {
    match event {
        Event::Full(index) => announce(alloc, device, to, index.files, true),
        Event::More(update) => announce(alloc, device, to, update.files, false),
        _ => Ok(()),
    }
}

fn announce(
    alloc: Global,
    device: DeviceId,
    to: &mut Peer,
    files: Items<FileInfo>,
    is_full: bool,
) -> Result<(), Refused> {
    let records = records_of(alloc, files)?;
    if device == to.calls.me() {
        return Ok(());
    }
    let reply = if is_full {
        to.calls.index_full(device, records)?
    } else {
        to.calls.index_more(device, records)?
    };
    match reply.value {
        Ok(()) => Ok(()),
        Err(HistoryFull) => Err(Refused::HistoryFull),
    }
}

// The records of the files whose names are safe.
fn records_of(alloc: Global, files: Items<FileInfo>) -> Result<Items<Record>, AllocError> {
    let mut files = VecDeque::from_vec(files.into_vec());
    let mut records = Vec::with_capacity(alloc, files.len())?;
    while let Some(info) = files.pop_front() {
        match Record::from_info(alloc, info) {
            Ok(record) => {
                records.push(record)?;
            }
            Err(NameFault::OutOfMemory) => return Err(AllocError),
            Err(_) => {}
        }
    }
    Ok(Items::from_vec(records))
}
