//! A turn of the indexer.
ghost use Rattle.std.specs.Prelude.{◌≡◌, IfErr, IfOk};
ghost use Rattle.folder_calls.specs.Shared.{Sees};
ghost use Rattle.peer_conn.specs.Turns.{GivesMessage, MayGiveMessage, Turns, message_of};
ghost use Rattle.peer_conn.specs.Words.{IsSameSeat, put_of};

use crate::ends::Seat;
use bep_frames::Message;
use bep_messages::{Index, IndexUpdate, Text};
use folder_calls::FolderCalls;
use index_sender::{IndexSender, Page, file_infos};
use std::alloc::{AllocError, Global};
use std::sync::Wait;

/// What a turn came to.
#[derive(Clone, Copy, Debug, PartialEq, Eq)]
pub enum Turn {
    /// A page was put.
    Put,
    /// There was nothing to tell, and nothing was put.
    Nothing,
    /// There is something to tell once it is kept, and nothing was put.
    Waiting,
    /// Nothing was put, and no turn is to follow: the sender may have gone on by a page.
    Ended(TurnEnd),
}

/// Why no turn is to follow.
#[derive(Clone, Copy, Debug, PartialEq, Eq)]
pub enum TurnEnd {
    /// Memory is out.
    OutOfMemory,
    /// The taker was dropped.
    Gone,
}

/// Puts the next page of those of this device's records of a folder that are kept, which are those up to a sequence, as an Index or an IndexUpdate,
/// and sleeps while the queue is full.
///
/// One call of the folder. O(n) for n bytes of names, counters and blocks of at most 1,000 records.
pub fn index_turn<R: Wait, W: FolderCalls>(
    rt: &R,
    alloc: Global,
    sender: &mut IndexSender,
    folder: &str,
    calls: &mut W,
    kept: u64,
    seat: &mut Seat<Message>,
) -> Turn
    ensures folder { W.folder calls.new ≡ W.folder calls.old }
    ensures sees { Sees (W.view calls.old) (W.view calls.new) }
    ensures same { IsSameSeat seat.old seat.new }
    ensures turns { Turns folder.now kept (W.view calls.new) sender.old sender.new (put_of seat.old) (put_of seat.new) result }
{
    match next_message(alloc, sender, folder, calls, kept) {
        Ok((Some(message), _)) => match seat.put_wait(rt, message) {
            Ok(()) => Turn::Put,
            Err(_) => Turn::Ended(TurnEnd::Gone),
        },
        Ok((None, true)) => Turn::Waiting,
        Ok((None, false)) => Turn::Nothing,
        Err(_) => Turn::Ended(TurnEnd::OutOfMemory),
    }
}

// The message of the next page, if there is one, and whether records wait until they are kept.
fn next_message<W: FolderCalls>(
    alloc: Global,
    sender: &mut IndexSender,
    folder: &str,
    calls: &mut W,
    kept: u64,
) -> Result<(Option<Message>, bool), AllocError>
    ensures folder { W.folder calls.new ≡ W.folder calls.old }
    ensures sees { Sees (W.view calls.old) (W.view calls.new) }
    ensures gives { IfOk result (λ told. GivesMessage folder.now kept (W.view calls.new) sender.old sender.new told.1 told.0) }
    ensures out_of_memory { IfErr result (λ _. MayGiveMessage folder.now kept (W.view calls.new) sender.old sender.new) }
{
    let next = sender.next_kept_page(calls, kept)?;
    let told = message_of(alloc, folder, &next.page)?;
    Ok((told, next.is_waiting))
}

fn message_of(alloc: Global, folder: &str, page: &Page) -> Result<Option<Message>, AllocError>
    ensures { IfOk result (λ told. told ≡ message_of folder.now page.now) }
{
    match page {
        Page::Index(records) => {
            let folder = Text::from_str(alloc, folder)?;
            let files = file_infos(alloc, records.as_slice())?;
            Ok(Some(Message::Index(Index { folder, files })))
        }
        Page::IndexUpdate(records) => {
            let folder = Text::from_str(alloc, folder)?;
            let files = file_infos(alloc, records.as_slice())?;
            Ok(Some(Message::IndexUpdate(IndexUpdate { folder, files })))
        }
        Page::Nothing => Ok(None),
    }
}
