//! The Requests of one connection that wait for their Response, or whose answer waits for who asked.
ghost use Rattle.std.specs.Prelude.{◌≡◌, ◌<◌, ◌∷◌, ◌++◌, ◌⊎◌, [], ℕ, IfErr, IfNone, IfOk, IfSome, None, OnErr, length, option_to_list};
ghost use Rattle.std.specs.List.{position};
ghost use Rattle.peer_asks.specs.Asks.{AreAllTaken, HasAnswered, HasOpened, HasTaken, IsAt, IsFreeAt, IsSetAt, IsWithoutLast, after_let_go, bytes_asked, bytes_of, has_room_ahead, is_free};
ghost use Rattle.peer_asks.specs.declared.fault.AskFault.TheVariants.{OutOfMemory, TooManyAsks};
ghost use Rattle.peer_asks.specs.declared.table.AskState.TheVariants.{Free, Waits};

use crate::fault::AskFault;
use bep_messages::Response;
use bep_session::MAX_ASKS;
use std::alloc::{AllocError, Global};
use std::mem;

/// How many Requests may be under way while others are made for blocks that nobody waits for yet.
const MAX_ASKS_AHEAD: usize = 768;

/// How many bytes of blocks may be asked for, and not taken, while others are asked for ahead: 256 MiB.
const MAX_BYTES_AHEAD: u64 = 268_435_456;

/// What is known of the Request with an id.
#[derive(Debug, Drop)]
pub(crate) enum AskState {
    /// There is none.
    Free,
    /// It waits for its Response, of so many bytes.
    Waits(u32),
    /// It waits, and nobody wants its bytes any more.
    LetGo,
    /// These bytes came, as many as were asked for.
    Came(Vec<u8>),
    /// A Response came without them.
    NoneCame,
}

/// What a Response brought.
#[derive(Clone, Copy, Debug, PartialEq, Eq)]
pub(crate) enum Arrival {
    /// As many bytes as were asked for.
    Data,
    /// An error of the peer, and no bytes.
    Refused,
    /// No error, and another number of bytes.
    WrongSize,
    /// Something that nobody wants any more.
    Late,
    /// Something for which no Request waits.
    Unknown,
}

/// What is there for who asked.
#[derive(Debug, Drop)]
pub(crate) enum Taken {
    /// Nothing yet.
    NotYet,
    /// These bytes.
    Bytes(Vec<u8>),
    /// Nothing, and nothing will come.
    Nothing,
}

/// The states of the Requests by their ids, from 1 on.
///
/// The reader's session keeps the ids that are open too (`bep_session`), so that it needs no lock to refuse a Response that answers none.
#[derive(Debug, Drop)]
pub(crate) struct AskTable {
    states: Vec<AskState>,
    // The ids of which the reader was not told yet.
    untold: Vec<i32>,
}

impl AskTable {
    /// Without a Request.
    pub(crate) fn new(alloc: Global) -> AskTable
        ensures states { result.states.items ≡ [] }
        ensures untold { result.untold.items ≡ [] }
    {
        AskTable {
            states: Vec::new(alloc),
            untold: Vec::new(alloc),
        }
    }

    /// Forgets all Requests.
    pub(crate) fn clear(&mut self)
        ensures states { self.new.states.items ≡ [] }
        ensures untold { self.new.untold.items ≡ [] }
    {
        self.states.clear();
        self.untold.clear();
    }

    /// Opens the least positive id of which there is no Request, for a Response of so many bytes. Fails with `TooManyAsks` only where each id
    /// that there may be has one. O(n) for n ids.
    pub(crate) fn open(&mut self, size: u32) -> Result<i32, AskFault>
        ensures opened { IfOk result (λ id. HasOpened self.old.states.items id (Waits size) self.new.states.items) }
        ensures free { IfOk result (IsFreeAt self.old.states.items) }
        ensures err { OnErr result (self.new.states.items ≡ self.old.states.items) }
        ensures untold { IfOk result (λ id. self.new.untold.items ≡ self.old.untold.items ++ id ∷ []) }
        ensures told { OnErr result (self.new.untold.items ≡ self.old.untold.items) }
        ensures full { IfErr result (λ fault. ((fault ≡ TooManyAsks) × AreAllTaken self.old.states.items) ⊎ (fault ≡ OutOfMemory)) }
    {
        let place = match self.free_place() {
            Some(place) => place,
            None => return self.add(size),
        };
        if place >= MAX_ASKS {
            return Err(AskFault::TooManyAsks);
        }
        let id = place as i32 + 1;
        self.untold.push(id).map_err(AllocError::from)?;
        self.states[place] = AskState::Waits(size);
        Ok(id)
    }

    // Opens the id after all others.
    fn add(&mut self, size: u32) -> Result<i32, AskFault>
        requires { position is_free self.old.states.items ≡ None }
        ensures opened { IfOk result (λ id. HasOpened self.old.states.items id (Waits size) self.new.states.items) }
        ensures free { IfOk result (IsFreeAt self.old.states.items) }
        ensures err { OnErr result (self.new.states.items ≡ self.old.states.items) }
        ensures untold { IfOk result (λ id. self.new.untold.items ≡ self.old.untold.items ++ id ∷ []) }
        ensures told { OnErr result (self.new.untold.items ≡ self.old.untold.items) }
        ensures full { IfErr result (λ fault. ((fault ≡ TooManyAsks) × AreAllTaken self.old.states.items) ⊎ (fault ≡ OutOfMemory)) }
    {
        let place = self.states.len();
        if place >= MAX_ASKS {
            return Err(AskFault::TooManyAsks);
        }
        let id = place as i32 + 1;
        self.untold.push(id).map_err(AllocError::from)?;
        if self.states.push(AskState::Waits(size)).is_err() {
            let _ = self.untold.pop();
            return Err(AskFault::OutOfMemory);
        }
        Ok(id)
    }

    /// Whether a block may be asked for that nobody waits for yet: there is a place for it before the last 256, and not too many bytes are asked for. O(n) for n ids.
    pub(crate) fn has_room_ahead(&self) -> bool
        ensures { result ≡ has_room_ahead self.now.states.items }
    {
        let place = self.free_place().unwrap_or(self.states.len());
        place < MAX_ASKS_AHEAD && self.bytes_asked() < MAX_BYTES_AHEAD
    }

    // How many bytes were asked for, and not taken.
    fn bytes_asked(&self) -> u64
        ensures { result ≡ bytes_asked self.now.states.items }
    {
        self.states
            .iter()
            .fold(0, |sum, state| sum.saturating_add(bytes_of(state)))
    }

    /// Takes back the id that was opened last, whose Request does not go out.
    pub(crate) fn take_back(&mut self, id: i32)
        ensures freed { IsSetAt self.old.states.items id (λ _. Free) self.new.states.items }
        ensures untold { IsWithoutLast self.old.untold.items self.new.untold.items }
    {
        let _ = self.untold.pop();
        if let Some(place) = self.place_of(id) {
            self.states[place] = AskState::Free;
        }
    }

    /// An id of which the reader was not told yet; it now is.
    pub(crate) fn next_untold(&mut self) -> Option<i32>
        ensures same { self.new.states.items ≡ self.old.states.items }
        ensures told { self.old.untold.items ≡ self.new.untold.items ++ option_to_list result }
        ensures none { IfNone result (self.old.untold.items ≡ []) }
    {
        self.untold.pop()
    }

    /// Takes a Response to the Request with its id. Does not allocate. O(1).
    pub(crate) fn answer(&mut self, response: Response) -> Arrival
        ensures answered { HasAnswered self.old.states.items response self.new.states.items result }
        ensures untold { self.new.untold.items ≡ self.old.untold.items }
    {
        let Response { id, payload, code } = response;
        let Some(place) = self.place_of(id) else {
            return Arrival::Unknown;
        };
        let (state, arrival) = match self.states[place] {
            AskState::Waits(_) if code != 0 => (AskState::NoneCame, Arrival::Refused),
            AskState::Waits(size) => {
                let bytes = payload.into_vec();
                if bytes.len() as u64 == u64::from(size) {
                    (AskState::Came(bytes), Arrival::Data)
                } else {
                    (AskState::NoneCame, Arrival::WrongSize)
                }
            }
            AskState::LetGo => (AskState::Free, Arrival::Late),
            _ => return Arrival::Unknown,
        };
        self.states[place] = state;
        arrival
    }

    /// What is there for who asked by this id; the id is then free, unless nothing is there yet. Does not allocate. O(1).
    pub(crate) fn take(&mut self, id: i32) -> Taken
        ensures taken { HasTaken self.old.states.items id self.new.states.items result }
        ensures untold { self.new.untold.items ≡ self.old.untold.items }
    {
        let Some(place) = self.place_of(id) else {
            return Taken::Nothing;
        };
        match self.states[place] {
            AskState::Waits(_) => return Taken::NotYet,
            AskState::LetGo => return Taken::Nothing,
            _ => {}
        }
        match mem::replace(&mut self.states[place], AskState::Free) {
            AskState::Came(bytes) => Taken::Bytes(bytes),
            _ => Taken::Nothing,
        }
    }

    /// Nobody wants the bytes of this id any more. It is free at once if they are there, else once its Response came.
    pub(crate) fn let_go(&mut self, id: i32)
        ensures let_go { IsSetAt self.old.states.items id after_let_go self.new.states.items }
        ensures untold { self.new.untold.items ≡ self.old.untold.items }
    {
        let Some(place) = self.place_of(id) else {
            return;
        };
        let state = match self.states[place] {
            AskState::Waits(_) | AskState::LetGo => AskState::LetGo,
            _ => AskState::Free,
        };
        self.states[place] = state;
    }

    // Where the id stands, if it does.
    fn place_of(&self, id: i32) -> Option<usize>
        ensures place { IfSome result (λ k. IsAt id k × (k < length self.now.states.items)) }
        ensures none { IfNone result ((k : ℕ) → k < length self.now.states.items → IsAt id k → ⊥) }
    {
        if id < 1 || id as usize > self.states.len() {
            return None;
        }
        Some(id as usize - 1)
    }

    // The least place at which there is no Request.
    fn free_place(&self) -> Option<usize>
        ensures { result ≡ position is_free self.now.states.items }
    {
        self.states
            .iter()
            .position(|state| matches!(state, AskState::Free))
    }
}

// How many bytes are asked for by a Request that waits, or came and were not taken.
fn bytes_of(state: &AskState) -> u64
    ensures { result ≡ bytes_of state.now }
{
    match state {
        AskState::Waits(size) => u64::from(*size),
        AskState::Came(bytes) => bytes.len() as u64,
        AskState::Free | AskState::LetGo | AskState::NoneCame => 0,
    }
}
