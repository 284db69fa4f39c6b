//! The order in which the needed names of a folder are pulled.
ghost use Rattle.std.specs.Prelude.{◌≡◌, ◌∷◌, [], IfOk};
ghost use Rattle.sync_record.specs.Records.{is_file};
ghost use Rattle.node_need.specs.Orders.{Chooses, IsAsked, IsOrderNow, IsOrderOf, is_reached, is_up, left_after, may_come, tried};
ghost use Rattle.node_need.specs.Retries.{retry_at};

use crate::retries::Retries;
use crate::wanted::Wanted;
use folder_calls::FolderCalls;
use std::alloc::{AllocError, Global};
use std::mem::replace;
use sync_names::SafeName;
use sync_record::{DeviceId, Kind, Record};

/// The needed names of a folder that are tried now.
#[derive(Drop)]
pub struct PullOrder {
    /// Those with a live best, in byte order: of files next to one another as many as there are, any other alone. A directory so comes before
    /// what is in it.
    pub live: Vec<Vec<Wanted>>,
    /// Those with a deleted best, in the reverse order, so that what is in a directory goes before it.
    pub deleted: Vec<Wanted>,
}

impl PullOrder {
    /// Those of these names, in byte order, that have a best and are not left alone, where these peers are up, and a second may lie behind the last
    /// round. A file is left out as long as none of these peers has announced it. Each is asked for once, in their order, and has what was told of it last, if nothing
    /// happened at it since. Fails only if out of memory.
    pub fn new<W: FolderCalls>(
        alloc: Global,
        calls: &mut W,
        needed: &[SafeName],
        retries: &mut Retries,
        up: &[DeviceId],
        is_later: bool,
    ) -> Result<PullOrder, AllocError>
        ensures folder { W.folder calls.new ≡ W.folder calls.old }
        ensures order { IfOk result (λ order.
            IsOrderNow up.now is_later (W.view calls.old) (retry_at retries.old) needed.now order (W.view calls.new) (retry_at retries.new)) }
    {
        let mut wanted = Vec::new(alloc);
        for name in needed {
            match choose(calls, name, retries, up, is_later)? {
                Some(one) => wanted.push(one)?,
                None => {}
            }
        }
        ordered(alloc, wanted)
    }
}

// What is to be tried of a name: what is known of it, if it has a best and is not left alone.
fn choose<W: FolderCalls>(
    calls: &mut W,
    name: &SafeName,
    retries: &mut Retries,
    up: &[DeviceId],
    is_later: bool,
) -> Result<Option<Wanted>, AllocError>
    ensures folder { W.folder calls.new ≡ W.folder calls.old }
    ensures chosen { IfOk result (λ one.
        Chooses up.now is_later (W.view calls.old) (retry_at retries.old) name.now one (W.view calls.new) (retry_at retries.new)) }
{
    match wanted_of(calls, name, up)? {
        Some(wanted) => Ok(tried(wanted, retries, up.len(), is_later)),
        None => Ok(None),
    }
}

// The same with what was told of it last, if it may be tried now.
fn tried(wanted: Wanted, retries: &mut Retries, up: usize, is_later: bool) -> Option<Wanted>
    ensures tried { result ≡ tried up (retry_at retries.old) (Some wanted) }
    ensures left { retry_at retries.new ≡ left_after up is_later (retry_at retries.old) (Some wanted) }
{
    if !may_come(&wanted) {
        return None;
    }
    let mut wanted = wanted;
    let told = retries.told_of(&wanted);
    if retries.is_over(&wanted, up, is_later) {
        wanted.told = told;
        Some(wanted)
    } else {
        None
    }
}

// Whether somebody who is up may have the bytes of its best, or it has none.
fn may_come(wanted: &Wanted) -> bool
    ensures { result ≡ may_come wanted.now }
{
    wanted.is_reached || wanted.best.is_deleted() || !is_file(&wanted.best)
}

// Whether one of these devices is up.
fn is_reached(devices: &[DeviceId], up: &[DeviceId]) -> bool
    ensures { result ≡ is_reached devices.now up.now }
{
    devices.iter().any(|device| is_up(*device, up))
}

fn is_up(device: DeviceId, up: &[DeviceId]) -> bool
    ensures { result ≡ is_up up.now device }
{
    up.iter().any(|other| *other == device)
}

// What is known of a name, if it has a best.
fn wanted_of<W: FolderCalls>(
    calls: &mut W,
    name: &SafeName,
    up: &[DeviceId],
) -> Result<Option<Wanted>, AllocError>
    ensures folder { W.folder calls.new ≡ W.folder calls.old }
    ensures asked { IfOk result (λ wanted. IsAsked up.now (W.view calls.old) name.now wanted (W.view calls.new)) }
{
    let best = calls.best(name)?;
    match best.value {
        Some(found) => {
            let local = calls.local(name)?;
            Ok(Some(Wanted {
                name: name.copy()?,
                is_reached: is_reached(found.devices.as_slice(), up),
                best: found.record,
                local: local.value,
                told: None,
            }))
        }
        None => Ok(None),
    }
}

// These names in their order: each once. Fails only if out of memory.
fn ordered(alloc: Global, wanted: Vec<Wanted>) -> Result<PullOrder, AllocError>
    ensures { IfOk result (IsOrderOf wanted.items) }
{
    let mut live = Vec::new(alloc);
    let mut files = Vec::new(alloc);
    let mut deleted = Vec::new(alloc);
    for one in wanted {
        if one.best.is_deleted() {
            deleted.push(one)?;
        } else if is_file(&one.best) {
            files.push(one)?;
        } else {
            live.push(replace(&mut files, Vec::new(alloc)))?;
            live.push(alone(alloc, one)?)?;
        }
    }
    live.push(files)?;
    deleted.reverse();
    Ok(PullOrder { live, deleted })
}

// A group of one name.
fn alone(alloc: Global, wanted: Wanted) -> Result<Vec<Wanted>, AllocError>
    ensures { IfOk result (λ group. group.items ≡ wanted ∷ []) }
{
    let mut group = Vec::new(alloc);
    group.push(wanted)?;
    Ok(group)
}

fn is_file(best: &Record) -> bool
    ensures { result ≡ is_file best.now }
{
    match best.kind() {
        Kind::File => true,
        Kind::Directory => false,
        Kind::Other => false,
    }
}
