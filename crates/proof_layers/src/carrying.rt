//! What is at a name of one store, carried to another.
ghost use Rattle.std.specs.Prelude.{◌≡◌, ◌≢◌, IfOk, OnOk, true};
ghost use Rattle.folder_calls.specs.Shared.{now};
ghost use Rattle.folder_core.specs.States.{local};
ghost use Rattle.sync_pull.specs.Pulled.{IfDone};
ghost use Rattle.sync_pull.specs.Standing.{StandsAs};
ghost use Rattle.sync_scan.specs.Scans.{GoesOn};
ghost use Rattle.proof_layers.specs.Carried.{AsksToPull, Carries, ComesTo, PullsTarget};

use crate::CarryFault;
use crate::laws::what_is_pulled_is_what_was_scanned;
use crate::saying::connect;
use crate::sending::send_index;
use crate::serving::Served;
use bep_session::Session;
use file_store::{FileStore, OpenGate};
use folder_calls::FolderCalls;
use folder_calls::laws::{
    answers_are_those_of_the_folder, changes_are_asked_in_order, views_are_of_folders,
};
use folder_core::ScanAnswer;
use folder_core::laws::{begun_pulls_are_of_the_name, best_is_preferred};
use std::alloc::Global;
use std::thread::Threads;
use sync_names::SafeName;
use sync_pull::{MaxConflicts, PullAnswer, pull_name};
use sync_record::laws::same_content_is_an_equivalence;
use sync_scan::laws::a_scan_adds_one_entry_at_most;
use sync_scan::{Scanned, scan_name};
use sync_version::Moment;

/// Carries what is at a name of one store to another, by all layers: the name is scanned into the one folder, whose whole index is then
/// sent to the other folder through two sessions, and there the name is pulled into the other store, by blocks that are asked for
/// and served through the same sessions. What serves them calls the one folder by itself, and has its own store over the same files.
///
/// Where the pull is done, both stores hold alike under the name, as [`what_is_pulled_is_what_was_scanned`] says it: if both keep what
/// is written, if nobody else changed the two folders meanwhile, and if the other folder had no valid record of the name by a third
/// device, or by itself, that the one folder's does not dominate. It does not matter for this what serves the blocks. Whatever the answer
/// is, the other folder had heard the index by then, and gave it where the pull was begun or ended.
///
/// Fails with `NotScanned` if the scan records nothing and finds nothing recorded, and as [`connect`] and [`send_index`] do.
pub fn carry<
    S: FileStore,
    A: FolderCalls,
    U: FileStore,
    V: FolderCalls,
    T: FileStore,
    B: FolderCalls,
>(
    rt: &(impl Threads + Sync),
    alloc: Global,
    folder: &str,
    one_store: &mut S,
    one: &mut A,
    server_store: &mut U,
    server: &mut V,
    other_store: &mut T,
    other: &mut B,
    name: &SafeName,
    moment: Moment,
    max_conflicts: MaxConflicts,
) -> Result<PullAnswer, CarryFault>
    requires { (A.view one.old).opening.me ≢ (B.view other.old).opening.me }
    ensures kept { S.keeps ≡ true → S.tree one_store.new ≡ S.tree one_store.old }
    // One relation between the two folders and the two stores, before and after, where the pull is done.
    ensures carries { S.keeps ≡ true → T.keeps ≡ true → IfOk result (λ answer. IfDone answer
        (Carries (A.view one.old).opening.me name.now (A.view one.old) (A.view one.new) (B.view other.old)
        (B.view other.new) ((S.tree one_store.new).names name.now)
        ((T.tree other_store.new).names name.now))) }
    ensures comes { IfOk result (λ answer. ComesTo (A.view one.old).opening.me name.now (A.view one.new) (B.view other.old)
        answer (B.view other.new)) }
{
    answers_are_those_of_the_folder();
    changes_are_asked_in_order();
    views_are_of_folders();
    begun_pulls_are_of_the_name();
    best_is_preferred();
    same_content_is_an_equivalence();
    what_is_pulled_is_what_was_scanned::<S, A, OpenGate>();
    let (mut near, mut far) = connect(alloc, folder, moment)?;
    scan(rt, alloc, one_store, one, name, moment)?;
    send_index(alloc, None, folder, one, &mut near, other, &mut far, moment)?;
    Ok(pull(
        rt,
        alloc,
        folder,
        server_store,
        server,
        &mut near,
        other_store,
        other,
        &mut far,
        name,
        moment,
        max_conflicts,
    ))
}

// What is at the name becomes the local record.
fn scan<S: FileStore, W: FolderCalls>(
    rt: &(impl Threads + Sync),
    alloc: Global,
    store: &mut S,
    calls: &mut W,
    name: &SafeName,
    moment: Moment,
) -> Result<(), CarryFault>
    ensures goes_on { OnOk result (GoesOn (W.view calls.old) (W.view calls.new)) }
    ensures stands { S.keeps ≡ true → OnOk result (StandsAs (local (now (W.view calls.new)) name.now)
        ((S.tree store.new).names name.now)) }
    ensures kept { S.keeps ≡ true → S.tree store.new ≡ S.tree store.old }
{
    a_scan_adds_one_entry_at_most::<S, W, OpenGate>();
    what_is_pulled_is_what_was_scanned::<S, W, OpenGate>();
    match scan_name(rt, alloc, store, calls, &OpenGate, name, moment)? {
        Scanned::Answered(Ok(ScanAnswer::Recorded(_))) => Ok(()),
        Scanned::Answered(Ok(ScanAnswer::Unchanged)) => Ok(()),
        _ => Err(CarryFault::NotScanned),
    }
}

// The name is pulled by blocks that the other end serves.
fn pull<U: FileStore, V: FolderCalls, T: FileStore, B: FolderCalls>(
    rt: &(impl Threads + Sync),
    alloc: Global,
    folder: &str,
    server_store: &mut U,
    server: &mut V,
    near: &mut Session,
    other_store: &mut T,
    other: &mut B,
    far: &mut Session,
    name: &SafeName,
    moment: Moment,
    max_conflicts: MaxConflicts,
) -> PullAnswer
    ensures target { T.keeps ≡ true → IfDone result (PullsTarget (B.view other.old) name.now
        ((T.tree other_store.new).names name.now) (B.view other.new)) }
    ensures asks { AsksToPull (B.view other.old) name.now result (B.view other.new) }
{
    answers_are_those_of_the_folder();
    changes_are_asked_in_order();
    let mut source = Served {
        alloc,
        folder,
        store: server_store,
        calls: server,
        server: near,
        asker: far,
        moment,
    };
    pull_name(
        rt,
        alloc,
        other_store,
        other,
        &mut source,
        &OpenGate,
        name,
        moment,
        max_conflicts,
    )
}
