//! The Requests under way over the connection with a peer.
ghost use Rattle.std.specs.Prelude.{◌≡◌, ◌≢◌, ◌⊎◌, ◌+◌, ◌%◌, ◌^◌, ◌∷◌, ◌++◌, ◌==◌, ◌&&◌, [], IfErr, IfOk, None, OnErr, OnOk, Some, false, if◌then◌else◌, is_some, not, true};
ghost use Rattle.peer_asks.specs.Asks.{HasLooked, HasOpened, HasRefused, HasTaken, IsSetAt, after_let_go};
ghost use Rattle.peer_asks.specs.Counts.{HasCounted};
ghost use Rattle.peer_asks.specs.Silence.{heard};
ghost use Rattle.peer_asks.specs.Requests.{IsNamed, IsTooLarge, TakesOne, request_of, under};
ghost use Rattle.peer_asks.specs.declared.fault.AskFault.TheVariants.{OutOfMemory, TooLarge};
ghost use Rattle.peer_asks.specs.declared.table.AskState.TheVariants.{Waits};
ghost use Rattle.peer_asks.specs.declared.table.Taken.TheVariants.{Nothing};

use crate::counts::AskCounts;
use crate::fault::AskFault;
use crate::silence::{Patience, STEP_SECONDS, Silences, second_of};
use crate::sink::RequestSink;
use crate::table::{Arrival, AskTable, Taken};
use bep_messages::{Request, Response, ShortOctets, Text};
use crossbeam_channel::Sender;
use std::alloc::{AllocError, Global};
use std::sync::{Condvar, Mutex, Wait};
use std::time::{Clock, Duration};
use sync_blocks::Block;
use sync_names::SafeName;

/// A Request that is under way, or was.
#[derive(Clone, Copy, Debug, PartialEq, Eq)]
pub struct AskId {
    // The connection's number, how many silences there were before, and the Request's number.
    connection: u64,
    silence: u64,
    id: i32,
}

/// The Requests under way over the connection with one peer, for as many threads as like: those that ask, and the reader of the
/// connection, which hands in the Responses. A book lasts longer than a connection; all waits end with each of them.
///
/// An id is the least positive one that no Request has, as a session chooses it. So at most [`MAX_ASKS`](bep_session::MAX_ASKS) are under
/// way, and a peer is asked no more while they are. A peer that says nothing is not waited for for ever ([`wait_for`](AskBook::wait_for)).
#[derive(Drop)]
pub struct AskBook {
    shared: Mutex<Shared<Sender<Request>>>,
    // Rung where something came, or the connection ended.
    arrived: Condvar,
}

// What stands under the lock.
#[derive(Drop)]
struct Shared<S> {
    // Where Requests go, while there is a connection.
    requests: Option<S>,
    // How many connections there were.
    connection: u64,
    table: AskTable,
    counts: AskCounts,
    // How many Responses came, and pieces of bytes.
    arrivals: u64,
    pieces: u64,
    silences: Silences,
}

impl AskBook {
    /// There is no connection. Does not allocate.
    pub fn new(alloc: Global) -> AskBook {
        AskBook {
            shared: Mutex::new(Shared {
                requests: None,
                connection: 0,
                table: AskTable::new(alloc),
                counts: AskCounts::new(),
                arrivals: 0,
                pieces: 0,
                silences: Silences::none(),
            }),
            arrived: Condvar::new(),
        }
    }

    /// A connection begins, whose requester takes Requests from the other end of this channel.
    pub fn begin<R: Wait>(&self, rt: &R, requests: Sender<Request>) {
        self.shared.lock(rt).change_to(Some(requests));
        self.arrived.notify_all();
    }

    /// The connection ends: its channel is dropped, and whoever waits for a Response gets none.
    pub fn end<R: Wait>(&self, rt: &R) {
        self.shared.lock(rt).change_to(None);
        self.arrived.notify_all();
    }

    /// Which connection there is, counted from the first, if there is one.
    pub fn connection<R: Wait>(&self, rt: &R) -> Option<u64> {
        self.shared.lock(rt).connection()
    }

    /// Asks the peer for a block of a file of the folder. Does not wait.
    ///
    /// Fails with `NotConnected` without a connection, with `Silent` while the peer is left alone, with `TooManyAsks` where no more may be
    /// under way, with `TooLarge` where no Request can name the block, and where memory runs out. O(n) for n ids under way and n bytes of
    /// the folder's id and the name.
    pub fn ask<R: Wait + Clock>(
        &self,
        rt: &R,
        alloc: Global,
        folder: &str,
        name: &SafeName,
        block: &Block,
    ) -> Result<AskId, AskFault> {
        let request = request_for(alloc, folder, name, block)?;
        let now = second_of(rt);
        let mut shared = self.shared.lock(rt);
        if shared.silences.is_left_alone(now) {
            return Err(AskFault::Silent);
        }
        shared.send(rt, request, block.size)
    }

    /// Asks it for a block that nobody waits for yet. So that there is room for those that are waited for, it also fails with `TooManyAsks`
    /// where 768 Requests are under way, or 256 MiB of blocks were asked for and not taken.
    pub fn ask_ahead<R: Wait + Clock>(
        &self,
        rt: &R,
        alloc: Global,
        folder: &str,
        name: &SafeName,
        block: &Block,
    ) -> Result<AskId, AskFault> {
        if !self.shared.lock(rt).table.has_room_ahead() {
            return Err(AskFault::TooManyAsks);
        }
        self.ask(rt, alloc, folder, name, block)
    }

    /// Waits until the Response of the Request came, and leaves its bytes in `bytes`, in place of what is there. Returns `false`, and
    /// leaves `bytes` as it is, where the Response had an error or another number of bytes than were asked for, where the connection ended,
    /// and where the peer was silent: while somebody waited, no byte came for a minute, or no Response for five. A silence ends all waits,
    /// for all Requests that were made before it. After three silences running, without a Response between, the peer is asked nothing for
    /// five minutes. The Request is then over; what comes later for it is counted as late.
    pub fn wait_for<R: Wait + Clock>(&self, rt: &R, ask: AskId, bytes: &mut Vec<u8>) -> bool
        ensures { result ≡ false → bytes.new.items ≡ bytes.old.items }
    {
        let mut shared = self.shared.lock(rt);
        let mut patience = Patience::new(shared.pieces);
        let mut is_over = false;
        for _ in rt.forever() {
            if let Some(is_there) = shared.look(ask, bytes) {
                return is_there;
            }
            if is_over && !shared.is_given_up(ask) {
                shared.silences.begin(second_of(rt));
                self.arrived.notify_all();
            }
            if shared.is_given_up(ask) {
                shared.let_go(ask);
                return false;
            }
            let seen = shared.arrivals;
            let (guard, waited) = self.arrived.wait_timeout_while(
                rt,
                shared,
                Duration::from_secs(STEP_SECONDS),
                |shared| shared.is_as(ask, seen),
            );
            shared = guard;
            if waited.timed_out() {
                is_over = patience.step(shared.pieces);
            } else {
                patience = Patience::new(shared.pieces);
            }
        }
        unreachable!()
    }

    /// Nobody will wait for the Response of the Request.
    pub fn let_go<R: Wait>(&self, rt: &R, ask: AskId) {
        self.shared.lock(rt).let_go(ask);
    }

    /// An id of a Request under way that this did not return before, if there is one: the reader of the connection opens it in its
    /// session, before it feeds what it reads next. That something was read is noted, so call it for each piece, until it returns none.
    pub fn next_ask<R: Wait>(&self, rt: &R) -> Option<i32> {
        let mut shared = self.shared.lock(rt);
        shared.pieces = shared.pieces.wrapping_add(1);
        shared.table.next_untold()
    }

    /// Hands in a Response, for who asked. Does not allocate.
    pub fn answer<R: Wait>(&self, rt: &R, response: Response) {
        let mut shared = self.shared.lock(rt);
        shared.answer(response);
        drop(shared);
        self.arrived.notify_all();
    }

    /// Counts a Response to an id that is not open.
    pub fn count_unknown<R: Wait>(&self, rt: &R) {
        let mut shared = self.shared.lock(rt);
        shared.counts.count(Arrival::Unknown);
    }

    /// What was counted since the book was made.
    pub fn counts<R: Wait>(&self, rt: &R) -> AskCounts {
        self.shared.lock(rt).counts
    }
}

impl<S: RequestSink + Drop> Shared<S> {
    // Requests go there from now on, or nowhere. None is under way.
    fn change_to(&mut self, requests: Option<S>)
        ensures to { self.new.requests ≡ requests }
        ensures states { self.new.table.states.items ≡ [] }
        ensures untold { self.new.table.untold.items ≡ [] }
        ensures connection { self.new.connection ≡ (self.old.connection + 1) % 2 ^ 64 }
        ensures counts { self.new.counts ≡ self.old.counts }
        ensures heard { self.new.silences ≡ heard self.old.silences }
    {
        self.requests = requests;
        self.table.clear();
        self.connection = self.connection.wrapping_add(1);
        self.silences.end();
    }

    fn connection(&self) -> Option<u64>
        ensures { result ≡ (if is_some self.now.requests then Some self.now.connection else None) }
    {
        if self.requests.is_some() {
            Some(self.connection)
        } else {
            None
        }
    }

    // Whether the peer was silent since it was asked.
    fn is_given_up(&self, ask: AskId) -> bool
        ensures { result ≡ not (ask.silence == self.now.silences.count) }
    {
        ask.silence != self.silences.count
    }

    // Whether nothing happened for who waits for this: no Response came since so many, the connection is the same, and the peer was not silent.
    fn is_as(&self, ask: AskId, arrivals: u64) -> bool
        ensures { result ≡ (self.now.arrivals == arrivals) && (self.now.connection == ask.connection)
            && (ask.silence == self.now.silences.count) }
    {
        self.arrivals == arrivals && self.connection == ask.connection && !self.is_given_up(ask)
    }

    // Gives the Request an id, and sends it.
    fn send<R: Wait>(&mut self, rt: &R, request: Request, size: u32) -> Result<AskId, AskFault>
        ensures opened { IfOk result (λ ask.
            HasOpened self.old.table.states.items ask.id (Waits size) self.new.table.states.items) }
        ensures untold { IfOk result (λ ask. self.new.table.untold.items ≡ self.old.table.untold.items ++ ask.id ∷ []) }
        ensures connection { IfOk result (λ ask. (ask.connection ≡ self.old.connection) × (ask.silence ≡ self.old.silences.count)) }
        ensures sent { IfOk result (λ ask.
            TakesOne S.takes (under ask.id request) true self.old.requests self.new.requests) }
        ensures not_sent { IfErr result (λ fault. HasRefused S.takes fault request self.old.requests self.new.requests
            self.old.table.states.items self.new.table.states.items) }
        ensures not_told { OnErr result (self.new.table.untold.items ≡ self.old.table.untold.items) }
        ensures same { (self.new.connection ≡ self.old.connection) × (self.new.counts ≡ self.old.counts) × (self.new.silences ≡ self.old.silences) }
    {
        let Some(requests) = &mut self.requests else {
            return Err(AskFault::NotConnected);
        };
        let id = self.table.open(size)?;
        let mut request = request;
        request.id = id;
        // (the channel has room for as many Requests as may be under way, so this never waits)
        if !requests.take(rt, request) {
            self.table.take_back(id);
            return Err(AskFault::TooManyAsks);
        }
        Ok(AskId {
            connection: self.connection,
            silence: self.silences.count,
            id,
        })
    }

    // What is there for who asked: whether its bytes came, which are left in `bytes` in place of what is there; nothing while its Response
    // may still come.
    fn look(&mut self, ask: AskId, bytes: &mut Vec<u8>) -> Option<bool>
        ensures same { ask.connection ≡ self.old.connection →
            HasLooked self.old.table.states.items ask.id self.new.table.states.items bytes.old.items result bytes.new.items }
        ensures other { ask.connection ≢ self.old.connection →
            (self.new.table.states.items ≡ self.old.table.states.items) × (result ≡ Some false)
            × (bytes.new.items ≡ bytes.old.items) }
        ensures kept { result ≢ Some true → bytes.new.items ≡ bytes.old.items }
    {
        match self.take(ask) {
            Taken::Bytes(came) => {
                *bytes = came;
                Some(true)
            }
            Taken::Nothing => Some(false),
            Taken::NotYet => None,
        }
    }

    fn take(&mut self, ask: AskId) -> Taken
        ensures same { ask.connection ≡ self.old.connection →
            HasTaken self.old.table.states.items ask.id self.new.table.states.items result }
        ensures other { ask.connection ≢ self.old.connection →
            (self.new.table.states.items ≡ self.old.table.states.items) × (result ≡ Nothing) }
    {
        if ask.connection != self.connection {
            return Taken::Nothing;
        }
        self.table.take(ask.id)
    }

    fn let_go(&mut self, ask: AskId)
        ensures same { ask.connection ≡ self.old.connection →
            IsSetAt self.old.table.states.items ask.id after_let_go self.new.table.states.items }
        ensures other { ask.connection ≢ self.old.connection →
            self.new.table.states.items ≡ self.old.table.states.items }
    {
        if ask.connection == self.connection {
            self.table.let_go(ask.id);
        }
    }

    fn answer(&mut self, response: Response)
        ensures counted { HasCounted self.old.table.states.items response self.new.table.states.items self.old.counts self.new.counts }
        ensures heard { self.new.silences ≡ heard self.old.silences }
    {
        self.silences.end();
        let arrival = self.table.answer(response);
        self.counts.count(arrival);
        self.arrivals = self.arrivals.wrapping_add(1);
    }
}

// The Request for the block, without its id, and without its digest: the bytes are tested here anyway, and a peer that was asked for a digest would
// hash them once more.
fn request_for(
    alloc: Global,
    folder: &str,
    name: &SafeName,
    block: &Block,
) -> Result<Request, AskFault>
    ensures made { IfOk result (λ request. request ≡ request_of folder.now name.now block.now) }
    ensures named { OnOk result (IsNamed block.now) }
    ensures faults { IfErr result (λ fault. ((fault ≡ TooLarge) × IsTooLarge block.now) ⊎ ((fault ≡ OutOfMemory) × IsNamed block.now)) }
{
    let (Ok(offset), Ok(size)) = (i64::try_from(block.offset), i32::try_from(block.size)) else {
        return Err(AskFault::TooLarge);
    };
    Ok(Request {
        id: 0,
        folder: Text::from_str(alloc, folder)?,
        name: Text::from_str(alloc, name.as_str())?,
        offset,
        size,
        hash: ShortOctets::new(alloc),
        from_temporary: false,
    })
}
