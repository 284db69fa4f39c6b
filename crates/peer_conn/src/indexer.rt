//! The indexer of a connection.
ghost use Rattle.std.specs.Prelude.{◌≡◌, ◌≢◌, ◌++◌, ◌∷◌, [], IfErr, IfOk, List, Option};
ghost use Rattle.std.specs.List.{AllZip};
ghost use Rattle.bep_frames.specs.declared.frame.Message.{Message};
ghost use Rattle.index_sender.specs.Pages.{Progress};
ghost use Rattle.peer_conn.specs.Indexing.{BeginsAt, EndsFor, Indexes, IsPing, Tells, TellsPeer};
ghost use Rattle.peer_conn.specs.declared.indexer.IndexerEnd.TheVariants.{Closed, Gone};
ghost use Rattle.peer_conn.specs.Turns.{OnlySees};
ghost use Rattle.peer_conn.specs.Words.{IsSameEnded, IsSameSeat, all_of, put_of};

use crate::config::{folder_of, start_of};
use crate::ends::{Ended, Seat};
use crate::kept::KeptCalls;
use crate::source::Source;
use crate::turn::{Turn, TurnEnd, index_turn};
use bep_frames::Message;
use bep_messages::{ClusterConfig, Ping, Text};
use bep_session::ping_due;
use folder_calls::FolderCalls;
use index_sender::IndexSender;
use std::alloc::{AllocError, Global};
use std::sync::Wait;
use std::time::{Clock, Duration};
use sync_version::Moment;

/// How many milliseconds the indexer sleeps once it has told all.
const PAUSE_MILLIS: u64 = 1000;

/// How many it sleeps where records are to be kept before they are told.
const KEEPING_PAUSE_MILLIS: u64 = 20;

/// A folder that is shared with the peer.
#[derive(Drop)]
pub struct IndexerFolder<W> {
    /// The folder's id.
    pub id: Text,
    /// The number of this device's index of the folder.
    pub index_id: u64,
    /// The calls of the folder.
    pub calls: W,
}

/// Why an indexer ended.
#[derive(Clone, Copy, Debug, PartialEq, Eq)]
pub enum IndexerEnd {
    /// No ClusterConfig will come any more.
    Closed,
    /// The taker was dropped.
    Gone,
    /// Memory is out.
    OutOfMemory,
}

impl From<AllocError> for IndexerEnd {
    fn from(_failed: AllocError) -> IndexerEnd {
        IndexerEnd::OutOfMemory
    }
}

/// Puts the ClusterConfig of this device, waits for the peer's, and then puts the pages of each folder that both have, one of each folder
/// in turn. A folder begins with an Index of all records, unless the peer's ClusterConfig says that it has this index up to some
/// sequence. Later ClusterConfigs of the peer are passed over.
///
/// A record is told once it is kept; where some are not, the indexer asks for it, and looks again after 20 milliseconds.
///
/// After a round in which there was nothing to tell it sleeps for a second, and puts a Ping if it has put nothing for 90 seconds. It
/// ends once no ClusterConfig will come any more, at once if it sleeps.
pub fn run_indexer<R: Wait + Clock, C: Source<ClusterConfig>, W: KeptCalls>(
    rt: &R,
    alloc: Global,
    config: ClusterConfig,
    configs: &mut C,
    folders: &mut [IndexerFolder<W>],
    seat: Seat<Message>,
) -> (Ended<Message>, IndexerEnd)
    ensures same { IsSameEnded seat result.0 }
    ensures tells { Indexes W.folder W.view W.says C.gives config configs.old configs.new folders.old (put_of seat)
        (all_of result.0) result.1 }
    ensures stays { AllZip (OnlySees W.folder W.view) folders.old folders.new }
{
    let mut seat = seat;
    let end = match seat.put_wait(rt, Message::ClusterConfig(config)) {
        Ok(()) => index_all(rt, alloc, configs, folders, &mut seat),
        Err(_) => IndexerEnd::Gone,
    };
    (seat.end(), end)
}

// Waits for the peer's ClusterConfig, and puts pages until it ends.
fn index_all<R: Wait + Clock, C: Source<ClusterConfig>, W: KeptCalls>(
    rt: &R,
    alloc: Global,
    configs: &mut C,
    folders: &mut [IndexerFolder<W>],
    seat: &mut Seat<Message>,
) -> IndexerEnd
    ensures same { IsSameSeat seat.old seat.new }
    ensures tells { (more : List Message) × (put_of seat.new ≡ put_of seat.old ++ more)
        × TellsPeer W.folder W.view W.says C.gives configs.old configs.new folders.old more result }
    ensures stays { AllZip (OnlySees W.folder W.view) folders.old folders.new }
{
    let Some(config) = configs.next(rt) else {
        return IndexerEnd::Closed;
    };
    let mut senders = match senders_of(alloc, &config, folders) {
        Ok(senders) => senders,
        Err(_) => return IndexerEnd::OutOfMemory,
    };
    let mut last_put = moment_of(rt, Moment::new(0).unwrap());
    for _ in rt.forever() {
        match index_once(
            rt,
            alloc,
            configs,
            folders,
            senders.as_mut_slice(),
            seat,
            last_put,
        ) {
            Ok(moment) => last_put = moment,
            Err(end) => return end,
        }
    }
    unreachable!()
}

// A round, and where there was nothing to tell a pause. Returns the moment of the last put.
fn index_once<R: Wait + Clock, C: Source<ClusterConfig>, W: KeptCalls>(
    rt: &R,
    alloc: Global,
    configs: &mut C,
    folders: &mut [IndexerFolder<W>],
    senders: &mut [Option<IndexSender>],
    seat: &mut Seat<Message>,
    last_put: Moment,
) -> Result<Moment, IndexerEnd>
    ensures same { IsSameSeat seat.old seat.new }
    ensures tells { (end : List (Option Progress)) × (more : List Message) × (put_of seat.new ≡ put_of seat.old ++ more)
        × Tells W.folder W.view W.says folders.old senders.old end more × IfOk result (λ _. end ≡ senders.new) }
    ensures over { IfErr result (λ why. EndsFor C.gives why configs.new) }
    ensures stays { AllZip (OnlySees W.folder W.view) folders.old folders.new }
{
    let moment = moment_of(rt, last_put);
    let round = index_round(rt, alloc, folders, senders, seat)?;
    let is_put = round == Round::Put;
    let is_ping = !is_put && ping_due(last_put, moment);
    if is_ping {
        put_ping(rt, seat)?;
    }
    if configs.is_over_within(rt, round.pause()) {
        return Err(IndexerEnd::Closed);
    }
    Ok(if is_put || is_ping { moment } else { last_put })
}

fn put_ping<R: Wait>(rt: &R, seat: &mut Seat<Message>) -> Result<(), IndexerEnd>
    ensures same { IsSameSeat seat.old seat.new }
    ensures put { (m : Message) × IsPing m × IfOk result (λ _. put_of seat.new ≡ put_of seat.old ++ m ∷ []) }
    ensures gone { IfErr result (λ why. (why ≡ Gone) × (put_of seat.new ≡ put_of seat.old)) }
{
    match seat.put_wait(rt, Message::Ping(Ping {})) {
        Ok(()) => Ok(()),
        Err(_) => Err(IndexerEnd::Gone),
    }
}

// The sender of each folder that the peer's ClusterConfig has too.
fn senders_of<W: FolderCalls>(
    alloc: Global,
    config: &ClusterConfig,
    folders: &mut [IndexerFolder<W>],
) -> Result<Vec<Option<IndexSender>>, AllocError>
    ensures stays { AllZip (OnlySees W.folder W.view) folders.old folders.new }
    ensures begins { IfOk result (λ senders. AllZip (BeginsAt W.view config.now) folders.old senders.items) }
{
    let mut senders = Vec::with_capacity(alloc, folders.len())?;
    for folder in folders {
        senders.push(sender_of(config, folder))?;
    }
    Ok(senders)
}

fn sender_of<W: FolderCalls>(
    config: &ClusterConfig,
    folder: &mut IndexerFolder<W>,
) -> Option<IndexSender>
    ensures stays { OnlySees W.folder W.view folder.old folder.new }
    ensures begins { BeginsAt W.view config.now folder.old result }
{
    let _ = folder_of(config, folder.id.as_str())?;
    let me = folder.calls.me();
    let last = folder.calls.known(me).value;
    let start = start_of(config, folder.id.as_str(), me, folder.index_id, last);
    Some(IndexSender::new(start))
}

// What a round came to.
#[derive(Clone, Copy, Debug, PartialEq, Eq)]
enum Round {
    // There was nothing to tell.
    Nothing,
    // There is something to tell once it is kept.
    Waiting,
    // A page was put.
    Put,
}

impl Round {
    // The same with a folder of which something waits to be kept.
    fn waiting(self) -> Round {
        match self {
            Round::Put => Round::Put,
            Round::Nothing | Round::Waiting => Round::Waiting,
        }
    }

    // How long the indexer sleeps then.
    fn pause(self) -> Duration {
        Duration::from_millis(match self {
            Round::Put => 0,
            Round::Waiting => KEEPING_PAUSE_MILLIS,
            Round::Nothing => PAUSE_MILLIS,
        })
    }
}

// A turn of each folder.
fn index_round<R: Wait, W: KeptCalls>(
    rt: &R,
    alloc: Global,
    folders: &mut [IndexerFolder<W>],
    senders: &mut [Option<IndexSender>],
    seat: &mut Seat<Message>,
) -> Result<Round, IndexerEnd>
    ensures same { IsSameSeat seat.old seat.new }
    ensures tells { (end : List (Option Progress)) × (more : List Message) × (put_of seat.new ≡ put_of seat.old ++ more)
        × Tells W.folder W.view W.says folders.old senders.old end more × IfOk result (λ _. end ≡ senders.new) }
    ensures open { IfErr result (λ why. why ≢ Closed) }
    ensures stays { AllZip (OnlySees W.folder W.view) folders.old folders.new }
{
    let mut round = Round::Nothing;
    for i in 0..folders.len().min(senders.len()) {
        let IndexerFolder {
            id,
            index_id: _,
            calls,
        } = &mut folders[i];
        let Some(sender) = &mut senders[i] else {
            continue;
        };
        let kept = calls.kept_up_to();
        match index_turn(rt, alloc, sender, id.as_str(), calls, kept, seat) {
            Turn::Put => round = Round::Put,
            Turn::Nothing => {}
            Turn::Waiting => {
                calls.ask_to_keep();
                round = round.waiting();
            }
            Turn::Ended(TurnEnd::OutOfMemory) => return Err(IndexerEnd::OutOfMemory),
            Turn::Ended(TurnEnd::Gone) => return Err(IndexerEnd::Gone),
        }
    }
    Ok(round)
}

// The moment by the clock, or the last one where there is none.
fn moment_of<R: Clock>(rt: &R, last: Moment) -> Moment {
    match rt.since_1970() {
        Ok(time) => Moment::new(time.as_secs()).unwrap_or(last),
        Err(_) => last,
    }
}
