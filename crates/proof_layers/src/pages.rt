//! The records of a page, as the other end of a connection hears them.
ghost use Rattle.std.specs.Prelude.{◌≡◌, All, IfOk, None, OnOk, map};
ghost use Rattle.bep_frames.specs.declared.frame.Message.TheVariants.{Index as IndexMessage, IndexUpdate as UpdateMessage};
ghost use Rattle.bep_messages.specs.declared.index.Index.{Index as AnyIndex};
ghost use Rattle.bep_messages.specs.declared.index_update.IndexUpdate.{IndexUpdate as AnyUpdate};
ghost use Rattle.sync_names.specs.Refusal.{refusal};
ghost use Rattle.sync_record.specs.Infos.{record_of};
ghost use Rattle.proof_layers.specs.Heard.{IsOpen};

use crate::CarryFault;
use crate::saying::pass;
use bep_frames::Message;
use bep_messages::{FileInfo, Index, IndexUpdate, Items, Text};
use bep_session::{Event, Session};
use index_sender::file_infos;
use std::alloc::{AllocError, Global};
use std::collections::VecDeque;
use sync_names::NameFault;
use sync_record::Record;
use sync_version::Moment;

/// The records of an Index, which one end says and the other hears.
pub(crate) fn pass_full(
    alloc: Global,
    folder: &str,
    records: &[Record],
    from: &mut Session,
    to: &mut Session,
    moment: Moment,
) -> Result<Items<Record>, CarryFault>
    requires { IsOpen to.old }
    ensures heard { IfOk result (λ heard. heard ≡ records.now) }
    ensures between { OnOk result (IsOpen to.new) }
{
    let message = index_of(alloc, folder, records)?;
    let mut events = pass(alloc, from, to, &message, moment)?;
    match events.pop() {
        Some(Event::Full(index)) => records_of(alloc, index.files),
        _ => Err(CarryFault::Unheard),
    }
}

/// The records of an IndexUpdate, which one end says and the other hears.
pub(crate) fn pass_more(
    alloc: Global,
    folder: &str,
    records: &[Record],
    from: &mut Session,
    to: &mut Session,
    moment: Moment,
) -> Result<Items<Record>, CarryFault>
    requires { IsOpen to.old }
    ensures heard { IfOk result (λ heard. heard ≡ records.now) }
    ensures between { OnOk result (IsOpen to.new) }
{
    let message = update_of(alloc, folder, records)?;
    let mut events = pass(alloc, from, to, &message, moment)?;
    match events.pop() {
        Some(Event::More(update)) => records_of(alloc, update.files),
        _ => Err(CarryFault::Unheard),
    }
}

fn index_of(alloc: Global, folder: &str, records: &[Record]) -> Result<Message, AllocError>
    ensures { IfOk result (λ message. (index : AnyIndex) × (message ≡ IndexMessage index)
        × (map record_of index.files ≡ records.now) × All (λ info. refusal info.name ≡ None) index.files) }
{
    Ok(Message::Index(Index {
        folder: Text::from_str(alloc, folder)?,
        files: file_infos(alloc, records)?,
    }))
}

fn update_of(alloc: Global, folder: &str, records: &[Record]) -> Result<Message, AllocError>
    ensures { IfOk result (λ message. (update : AnyUpdate) × (message ≡ UpdateMessage update)
        × (map record_of update.files ≡ records.now) × All (λ info. refusal info.name ≡ None) update.files) }
{
    Ok(Message::IndexUpdate(IndexUpdate {
        folder: Text::from_str(alloc, folder)?,
        files: file_infos(alloc, records)?,
    }))
}

// The records of the files that came, all of them.
fn records_of(alloc: Global, files: Items<FileInfo>) -> Result<Items<Record>, CarryFault>
    requires { All (λ info. refusal info.name ≡ None) files }
    ensures { IfOk result (λ records. records ≡ map record_of files) }
{
    let mut files = VecDeque::from_vec(files.into_vec());
    let mut records = Vec::with_capacity(alloc, files.len())?;
    while let Some(info) = files.pop_front() {
        match Record::from_info(alloc, info) {
            Ok(record) => {
                records.push(record)?;
            }
            Err(NameFault::OutOfMemory) => return Err(CarryFault::OutOfMemory),
            Err(_) => unreachable!(),
        }
    }
    Ok(Items::from_vec(records))
}
