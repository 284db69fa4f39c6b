//! The index of one folder, as it becomes changes of another.
ghost use Rattle.std.specs.Prelude.{◌≡◌, ◌≢◌, ◌∷◌, [], OnOk};
ghost use Rattle.folder_calls.specs.Adds.{Asks};
ghost use Rattle.folder_calls.specs.Shared.{IsLegalView, Sees, now};
ghost use Rattle.folder_core.specs.States.{local};
ghost use Rattle.folder_core.specs.declared.answer.Answer.TheVariants.{Applied};
ghost use Rattle.folder_core.specs.declared.change.Change.TheVariants.{IndexFull, IndexMore};
ghost use Rattle.sync_record.specs.Devices.{Identity};
ghost use Rattle.sync_record.specs.Records.{Name};
ghost use Rattle.proof_layers.specs.Alone.{IsAlone};
ghost use Rattle.proof_layers.specs.Heard.{IsOpen};
ghost use Rattle.proof_layers.specs.Told.{Sends, after_index, changes_of, told_by};

use crate::CarryFault;
use crate::pages::{pass_full, pass_more};
use bep_messages::Items;
use bep_session::Session;
use folder_calls::laws::{
    answers_are_those_of_the_folder, changes_are_asked_in_order, entries_add_up,
    views_are_of_folders,
};
use folder_calls::{FolderCalls, HistoryFull};
use folder_core::laws::{index_full_replaces, index_more_adds};
use index_sender::laws::{nothing_is_left, pages_keep_up, peers_have_the_overlay};
use index_sender::{IndexSender, Page};
use std::alloc::Global;
use sync_record::{DeviceId, Record};
use sync_version::Moment;

/// Sends the index of one folder to another: page after page, each of which one session says and the other hears, until there is
/// nothing left to tell.
///
/// Without a start it is the whole index, and else the records of greater sequence, where a negative start is 0. The other folder then has
/// just these records of the first one's device, in place of what it had, if nobody else changed it meanwhile; whoever changes the
/// first folder meanwhile, they are its local records of the moment when nothing was left.
///
/// Fails if out of memory, with `TooLong` for a page that no message can have, and with `HistoryFull` if the other folder has no
/// room; then the pages before were heard. O(n) for n bytes of what the records hold.
pub fn send_index<A: FolderCalls, B: FolderCalls>(
    alloc: Global,
    start: Option<i64>,
    folder: &str,
    from: &mut A,
    from_session: &mut Session,
    to: &mut B,
    to_session: &mut Session,
    moment: Moment,
) -> Result<(), CarryFault>
    requires apart { (A.view from.old).opening.me ≢ (B.view to.old).opening.me }
    requires between { IsOpen to_session.old }
    ensures from_folder { A.folder from.new ≡ A.folder from.old }
    ensures to_folder { B.folder to.new ≡ B.folder to.old }
    ensures sees { Sees (A.view from.old) (A.view from.new) }
    ensures between { OnOk result (IsOpen to_session.new) }
    ensures legal { OnOk result (IsLegalView (A.view from.new)) }
    // Each page is the change that it is, whoever else changes the folders.
    ensures sends { OnOk result (Sends (A.view from.old).opening.me start (A.view from.new) (B.view to.old)
        (B.view to.new)) }
    // Where nobody else changes the other folder, it has just what was sent,
    ensures told { OnOk result (IsAlone (B.view to.old) (B.view to.new) → (n : Name) →
        told_by (A.view from.old).opening.me (now (B.view to.new)) n
        ≡ after_index start (local (now (A.view from.new)))
        (told_by (A.view from.old).opening.me (now (B.view to.old))) n) }
    // and of other devices what it had.
    ensures others { OnOk result (IsAlone (B.view to.old) (B.view to.new) → (e : Identity) (n : Name) →
        (A.view from.old).opening.me ≢ e →
        told_by e (now (B.view to.new)) n ≡ told_by e (now (B.view to.old)) n) }
{
    answers_are_those_of_the_folder();
    changes_are_asked_in_order();
    views_are_of_folders();
    peers_have_the_overlay();
    index_full_replaces();
    index_more_adds();
    let device = from.me();
    send_pages(
        alloc,
        device,
        start,
        folder,
        from,
        from_session,
        to,
        to_session,
        moment,
    )
}

// Each page is said and heard, until nothing is left.
fn send_pages<A: FolderCalls, B: FolderCalls>(
    alloc: Global,
    device: DeviceId,
    start: Option<i64>,
    folder: &str,
    from: &mut A,
    from_session: &mut Session,
    to: &mut B,
    to_session: &mut Session,
    moment: Moment,
) -> Result<(), CarryFault>
    requires apart { device ≢ (B.view to.old).opening.me }
    requires between { IsOpen to_session.old }
    ensures from_folder { A.folder from.new ≡ A.folder from.old }
    ensures to_folder { B.folder to.new ≡ B.folder to.old }
    ensures sees { Sees (A.view from.old) (A.view from.new) }
    ensures between { OnOk result (IsOpen to_session.new) }
    ensures legal { OnOk result (IsLegalView (A.view from.new)) }
    ensures sends { OnOk result (Sends device start (A.view from.new) (B.view to.old) (B.view to.new)) }
{
    changes_are_asked_in_order();
    entries_add_up();
    views_are_of_folders();
    pages_keep_up();
    nothing_is_left();
    let mut sender = IndexSender::new(start);
    for _turn in 0..u64::MAX {
        match sender.next_page(from)? {
            Page::Nothing => return Ok(()),
            page => {
                send_page(
                    alloc,
                    device,
                    folder,
                    page,
                    from_session,
                    to,
                    to_session,
                    moment,
                )?;
            }
        }
    }
    Err(CarryFault::Unheard)
}

// A page is said and heard, and becomes the change that it is.
fn send_page<B: FolderCalls>(
    alloc: Global,
    device: DeviceId,
    folder: &str,
    page: Page,
    from_session: &mut Session,
    to: &mut B,
    to_session: &mut Session,
    moment: Moment,
) -> Result<(), CarryFault>
    requires apart { device ≢ (B.view to.old).opening.me }
    requires between { IsOpen to_session.old }
    ensures folder { B.folder to.new ≡ B.folder to.old }
    ensures between { OnOk result (IsOpen to_session.new) }
    ensures asks { OnOk result (Asks (B.view to.old) (changes_of device (page ∷ [])) (B.view to.new)) }
{
    match page {
        Page::Nothing => Ok(()),
        Page::Index(records) => {
            let heard = pass_full(
                alloc,
                folder,
                records.as_slice(),
                from_session,
                to_session,
                moment,
            )?;
            announce_full(to, device, heard)
        }
        Page::IndexUpdate(records) => {
            let heard = pass_more(
                alloc,
                folder,
                records.as_slice(),
                from_session,
                to_session,
                moment,
            )?;
            announce_more(to, device, heard)
        }
    }
}

// The device announces these records and no others.
fn announce_full<B: FolderCalls>(
    to: &mut B,
    device: DeviceId,
    records: Items<Record>,
) -> Result<(), CarryFault>
    requires { device ≢ (B.view to.old).opening.me }
    ensures folder { B.folder to.new ≡ B.folder to.old }
    ensures asks { OnOk result (Asks (B.view to.old) ((IndexFull device records, Applied) ∷ []) (B.view to.new)) }
{
    changes_are_asked_in_order();
    match to.index_full(device, records)?.value {
        Ok(()) => Ok(()),
        Err(HistoryFull) => Err(CarryFault::HistoryFull),
    }
}

// The device announces these records too.
fn announce_more<B: FolderCalls>(
    to: &mut B,
    device: DeviceId,
    records: Items<Record>,
) -> Result<(), CarryFault>
    requires { device ≢ (B.view to.old).opening.me }
    ensures folder { B.folder to.new ≡ B.folder to.old }
    ensures asks { OnOk result (Asks (B.view to.old) ((IndexMore device records, Applied) ∷ []) (B.view to.new)) }
{
    changes_are_asked_in_order();
    match to.index_more(device, records)?.value {
        Ok(()) => Ok(()),
        Err(HistoryFull) => Err(CarryFault::HistoryFull),
    }
}
