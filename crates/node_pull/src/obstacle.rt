//! A file that is where a directory is needed: when it makes way, and when it is moved back.
use crate::batch::Source;
use crate::beginning::{first_with_bytes, may_make_way};
use crate::puller::{keep_copy, pull_once};
use file_store::{FileStore, Gate, GatePlace, Stat, StoreRefusal, read_full};
use folder_calls::FolderCalls;
use node_context::{Context, Host};
use node_files::Marked;
use node_folder::FolderWorker;
use std::alloc::{AllocError, Global};
use sync_blocks::Block;
use sync_names::{SafeName, conflict_name};
use sync_pull::{BlockSource, PullAnswer, PullFailure, make_copy};
use sync_record::{Kind, Record};
use sync_scan::scan_name;
use sync_version::Moment;

/// Pulls a name that could not be put in place, since something is where one of its directories is to be.
///
/// A file makes way if this device has recorded it and needs nothing else at its name: no pull would ever take it away, nor could those that have
/// the directory pull the file. It does so only once the first block of what needs the way is at hand, if that is a file with any: else the
/// answer is `NoSource`, and nothing has changed. It is moved to the name of a conflict copy, and back if the pull then fails. Only once the pull is
/// done it is recorded that the file is gone and the copy there. Where nothing may make way the answer is `BadParent`.
pub(crate) fn pull_past<R, S, W, G>(
    cx: &Context<R, G>,
    worker: &mut FolderWorker<S, W>,
    source: &mut Source<'_, '_, R, G>,
    name: &SafeName,
) -> PullAnswer
where
    R: Host,
    S: FileStore + Marked,
    W: FolderCalls,
    G: Gate,
{
    let blocked = PullAnswer::Failed(PullFailure::BadParent);
    let Ok(Some(file)) = file_in_the_way(cx.alloc, &mut worker.calls, cx.gate, name) else {
        return blocked;
    };
    match has_beginning(cx, worker, source, name) {
        Ok(true) => {}
        Ok(false) => return PullAnswer::Failed(PullFailure::NoSource),
        Err(AllocError) => return blocked,
    }
    let moment = worker.folder.times.next(cx);
    let Some(copy) = move_aside(cx, &mut worker.store, &file, moment) else {
        return blocked;
    };
    let answer = pull_once(cx, worker, source, name);
    let is_done = matches!(answer, PullAnswer::Done(_));
    if is_done || !move_back(cx, worker, name, &file, &copy) {
        cx.gate.at(GatePlace::FolderCall);
        // (where memory runs out, or the record is another one now, the next scan records it)
        let _ = worker
            .calls
            .scan_gone(file.name(), Some(file.version()), moment);
        keep_copy(cx, worker, &copy);
    }
    answer
}

// The record of the file that is where a directory of the name should be, if it is this device's and the best of its name. O(n) calls for a name
// with n directories.
fn file_in_the_way<W: FolderCalls, G: Gate>(
    alloc: Global,
    calls: &mut W,
    gate: &G,
    name: &SafeName,
) -> Result<Option<Record>, AllocError> {
    let text = name.as_str();
    for (end, byte) in text.as_bytes().iter().enumerate() {
        if *byte != b'/' {
            continue;
        }
        let Some(parent) = text.get(..end) else {
            continue;
        };
        let Ok(parent) = SafeName::parse(alloc, parent) else {
            return Err(AllocError);
        };
        gate.at(GatePlace::FolderCall);
        if let Some(record) = calls.local(&parent)?.value {
            if !record.is_deleted() && record.kind() == Kind::File {
                return Ok(if is_best(calls, gate, &record)? {
                    Some(record)
                } else {
                    None
                });
            }
        }
    }
    Ok(None)
}

// Whether the best of the record's name has its version, so that nothing else is needed there.
fn is_best<W: FolderCalls, G: Gate>(
    calls: &mut W,
    gate: &G,
    record: &Record,
) -> Result<bool, AllocError> {
    gate.at(GatePlace::FolderCall);
    Ok(match calls.best(record.name())?.value {
        Some(best) => best.record.version() == record.version(),
        None => false,
    })
}

// Whether what the best of the name begins with is at hand: from a local place, or from a device that has it, but never this one.
fn has_beginning<R, S, W, G>(
    cx: &Context<R, G>,
    worker: &mut FolderWorker<S, W>,
    source: &mut Source<'_, '_, R, G>,
    name: &SafeName,
) -> Result<bool, AllocError>
where
    R: Host,
    S: FileStore,
    W: FolderCalls,
    G: Gate,
{
    let FolderWorker { store, calls, .. } = worker;
    cx.gate.at(GatePlace::FolderCall);
    let Some(best) = calls.best(name)?.value else {
        return Ok(false);
    };
    let mut bytes = Vec::new(cx.alloc);
    let Some(block) = first_with_bytes(best.record.blocks()) else {
        return Ok(may_make_way(&best.record, &[]));
    };
    if read_place(store, calls, cx.gate, &block, &mut bytes)?
        && may_make_way(&best.record, bytes.as_slice())
    {
        return Ok(true);
    }
    let me = calls.me();
    for device in best.devices.as_slice() {
        bytes.clear();
        if *device != me
            && source.fetch(*device, name, &block, &mut bytes)?
            && may_make_way(&best.record, bytes.as_slice())
        {
            return Ok(true);
        }
    }
    Ok(false)
}

// Reads the bytes at a place in a local file that has the block's digest, if the folder knows one. Returns whether the file has as many there.
fn read_place<S: FileStore, W: FolderCalls, G: Gate>(
    store: &mut S,
    calls: &mut W,
    gate: &G,
    block: &Block,
    bytes: &mut Vec<u8>,
) -> Result<bool, AllocError> {
    gate.at(GatePlace::FolderCall);
    let Some(place) = calls.find_block(&block.hash)?.value else {
        return Ok(false);
    };
    if place.offset.checked_add(u64::from(block.size)).is_none() {
        return Ok(false);
    }
    bytes.clear();
    bytes.resize(block.size as usize, 0)?;
    match read_full(store, gate, &place.name, place.offset, bytes.as_mut_slice()) {
        Ok(count) => Ok(count == bytes.len()),
        Err(_) => Ok(false),
    }
}

// Moves the file to the name of a conflict copy, if that is free. Returns this name if it was moved.
fn move_aside<R, S, G>(
    cx: &Context<R, G>,
    store: &mut S,
    file: &Record,
    moment: Moment,
) -> Option<SafeName>
where
    R: Host,
    S: FileStore + Marked,
    G: Gate,
{
    let name = file.name();
    if cx.is_stopping() {
        return None;
    }
    let copy = conflict_name(name, moment, file.modified_by()).ok()?;
    cx.gate.at(GatePlace::StoreRead);
    let Ok(Stat::File(_, _)) = store.stat(name) else {
        return None;
    };
    let is_moved = make_copy(store, cx.gate, name, Some(&copy));
    let _ = store.take_moved();
    match is_moved {
        Ok(true) => Some(copy),
        _ => None,
    }
}

// Moves the file back, after a pull that failed. Returns whether it is back.
fn move_back<R, S, W, G>(
    cx: &Context<R, G>,
    worker: &mut FolderWorker<S, W>,
    name: &SafeName,
    file: &Record,
    copy: &SafeName,
) -> bool
where
    R: Host,
    S: FileStore + Marked,
    W: FolderCalls,
    G: Gate,
{
    let FolderWorker {
        folder,
        store,
        calls,
    } = worker;
    remove_dirs(cx.alloc, store, name, file.name());
    let is_back = store.rename(copy, file.name()).is_ok();
    let _ = store.take_moved();
    if is_back && !is_recorded(calls, cx.gate, file) {
        // (a scan found it gone, and the copy there)
        let moment = folder.times.next(cx);
        for name in [file.name(), copy] {
            let _ = scan_name(cx.rt, cx.alloc, store, calls, cx.gate, name, moment);
        }
    }
    is_back
}

// Whether the record is still the local one of its name.
fn is_recorded<W: FolderCalls, G: Gate>(calls: &mut W, gate: &G, record: &Record) -> bool {
    gate.at(GatePlace::FolderCall);
    match calls.local(record.name()) {
        Ok(local) => match &local.value {
            Some(local) => local.version() == record.version(),
            None => false,
        },
        Err(AllocError) => true,
    }
}

// Removes the directories of a name from this one on, which were made for it, the deepest first, as far as nothing is in them.
fn remove_dirs<S: FileStore>(alloc: Global, store: &mut S, name: &SafeName, first: &SafeName) {
    let text = name.as_str();
    for (end, byte) in text.as_bytes().iter().enumerate().rev() {
        if end < first.as_str().len() {
            return;
        }
        if *byte != b'/' {
            continue;
        }
        let Some(dir) = text.get(..end) else {
            return;
        };
        let Ok(dir) = SafeName::parse(alloc, dir) else {
            return;
        };
        // (a fault if it was not made)
        if let Err(StoreRefusal::NotEmpty) = store.remove_dir(&dir) {
            return;
        }
    }
}
