//! The state machine of a connection, without I/O: bytes received, messages said, Request ids, timeouts and Pings.
ghost use Rattle.std.specs.Prelude.{◌≡◌, ◌≢◌, ℕ, pos, ◌≤◌, ◌<◌, ◌+◌, ◌++◌, ◌↔◌, [], None, false, true, length, vec_len, vec_capacity, if◌then◌else◌, IsErrOf, IsOk, IfOk, OnOk, OnErr};
ghost use Rattle.bep_frames.specs.Grammar.{IsFrame, max_message_bytes};
ghost use Rattle.bep_frames.specs.Written.{body_of, message_frame};
ghost use Rattle.bep_frames.specs.declared.frame.Frame.TheVariants.{Message as MessageFrame};
ghost use Rattle.bep_session.specs.declared.conversation.Stage.TheVariants.{Over};
ghost use Rattle.bep_session.specs.Ids.{IsLeastFree, can_book, max_asks};
ghost use Rattle.bep_session.specs.Sessions.{RunsOutOfMemory, begun, fed, said_at, with_open};
ghost use Rattle.bep_session.specs.Times.{tick_at};

use crate::conversation::{Conversation, Stage};
use crate::event::Event;
use crate::fault::AskRefusal;
use crate::ids::MAX_ASKS;
use crate::pieces::take_piece;
use crate::times::{Tick, ping_due, timed_out};
use bep_frames::{FrameReader, Message, WriteFault, write_frame};
use std::alloc::{AllocError, Global};
use std::marker::Model;
use sync_version::Moment;

/// One connection, as a value: the peer's bytes go in, events come out. Contracts see whether the Hello is due, the bytes after
/// the last whole frame, which ids are open, the moments of the last message said and the last frame received, and whether the
/// peer's ClusterConfig is due or the session has ended.
///
/// Memory: that of a [`FrameReader`], and a few bytes for each open id above [`MAX_ASKS`], which only [`book`](Session::book) opens.
#[derive(Debug, Drop)]
pub struct Session {
    alloc: Global,
    reader: FrameReader,
    conversation: Conversation,
}

impl Model for Session {
    ghost use Rattle.bep_session.specs.Sessions.{View};

    ghost Value = { View };

    ghost use Rattle.bep_session.specs.Progress.{IsDrained};

    ghost view = { λ s. record { hello = s.reader.hello; rest = s.reader.rest; conversation = s.conversation } };

    ghost invariant = { λ s. IsDrained s.reader };
}

impl Session {
    /// A session to which nothing was fed yet, and by which nothing was said or asked. Time counts from this moment. Does not allocate.
    pub fn new(alloc: Global, moment: Moment) -> Session
        ensures { result ≡ begun moment }
    {
        Session {
            alloc,
            reader: FrameReader::new(alloc),
            conversation: Conversation::new(alloc, moment),
        }
    }

    /// Takes the next bytes of the peer's stream, received at this moment, and returns the events of the messages that are then
    /// whole, in order. After the event `Ended` or `PeerClosed` it returns none.
    ///
    /// Returns `Err` if allocation fails: for the piece, which is kept first, for a frame that holds texts, bytes or messages, or for an
    /// event. So it never fails for a piece without bytes nor after the end. The session has then ended, and the events of the piece
    /// are lost. O(n) in the bytes, and O(log m) for each Response where m ids are open; what the messages hold is moved into the
    /// events.
    pub fn feed(&mut self, piece: &[u8], moment: Moment) -> Result<Vec<Event>, AllocError>
        ensures events { IfOk result (λ events. events.items ≡ (fed self.old piece.now moment).events) }
        ensures session { OnOk result (self.new ≡ (fed self.old piece.now moment).session) }
        ensures err { OnErr result (RunsOutOfMemory self.old piece.now moment self.new) }
        ensures over { self.old.conversation.stage ≡ Over → IsOk result }
        ensures nothing { piece.now ≡ [] → IsOk result }
    {
        let mut events = Vec::new(self.alloc);
        if self.conversation.stage == Stage::Over || piece.is_empty() {
            return Ok(events);
        }
        if let Err(error) = take_piece(
            &mut self.reader,
            &mut self.conversation,
            piece,
            moment,
            &mut events,
        ) {
            self.conversation.stage = Stage::Over;
            self.reader = FrameReader::after_hello(self.alloc);
            return Err(error);
        }
        if self.conversation.stage == Stage::Over {
            self.reader = FrameReader::after_hello(self.alloc);
        }
        Ok(events)
    }

    /// Appends the frame of a message to `out`, and counts it as said at this moment.
    ///
    /// Fails as [`write_frame`] does, with `TooLong` or `OutOfMemory`; then nothing has changed. O(n) in the bytes of the frame.
    pub fn say(
        &mut self,
        message: &Message,
        out: &mut Vec<u8>,
        moment: Moment,
    ) -> Result<(), WriteFault>
        ensures ok { OnOk result (out.new.items ≡ out.old.items ++ message_frame message.now) }
        ensures said { OnOk result (self.new ≡ said_at self.old moment) }
        ensures short { OnOk result (length (body_of message.now) ≤ max_message_bytes) }
        // What is written is read as what was handed in.
        ensures again { OnOk result (IsFrame false (message_frame message.now) (MessageFrame message.now)) }
        ensures long { IsErrOf result WriteFault.TooLong → max_message_bytes < length (body_of message.now) }
        ensures err { OnErr result (out.new.items ≡ out.old.items) }
        ensures unchanged { OnErr result (self.new ≡ self.old) }
        ensures capacity { vec_capacity out.old ≤ vec_capacity out.new }
        // Out of memory only where `out` has no room for the frame.
        ensures full { IsErrOf result WriteFault.OutOfMemory → vec_capacity out.old < vec_len out.old + length (message_frame message.now) }
    {
        write_frame(message, out)?;
        self.conversation.said = moment;
        Ok(())
    }

    /// Opens the least positive id that isn't open, for a Request that the caller then says.
    ///
    /// Fails with `TooManyAsks` exactly where [`MAX_ASKS`] ids are open, and then nothing has changed. Does not allocate. O(1).
    pub fn ask(&mut self) -> Result<i32, AskRefusal>
        ensures least { IfOk result (IsLeastFree self.old.conversation.asks) }
        ensures opened { IfOk result (λ id. self.new ≡ with_open self.old id) }
        ensures room { IsOk result ↔ (length self.old.conversation.asks < max_asks) }
        ensures err { OnErr result (self.new ≡ self.old) }
    {
        match self.conversation.asks.open_least() {
            Some(id) => Ok(id),
            None => Err(AskRefusal::TooManyAsks),
        }
    }

    /// Opens an id that was chosen elsewhere, and returns whether it could: it is positive, wasn't open, and fewer than
    /// [`MAX_ASKS`] ids were.
    ///
    /// Returns `Err` if allocation fails, which it may only for an id above [`MAX_ASKS`] that can be opened; then nothing has changed. O(1), or
    /// O(log n) for such an id, where n of them are open.
    pub fn book(&mut self, id: i32) -> Result<bool, AllocError>
        ensures booked { IfOk result (λ booked. booked ≡ can_book self.old.conversation.asks id) }
        ensures opened { IfOk result (λ booked. self.new ≡ (if booked then with_open self.old id else self.old)) }
        ensures only { OnErr result (can_book self.old.conversation.asks id ≡ true) }
        ensures above { OnErr result ((k : ℕ) → k ≤ max_asks → id ≢ pos k) }
        ensures err { OnErr result (self.new ≡ self.old) }
    {
        if id < 1
            || self.conversation.asks.len() >= MAX_ASKS
            || self.conversation.asks.contains(id)
        {
            return Ok(false);
        }
        self.conversation.asks.insert(id)?;
        Ok(true)
    }

    /// What is due at a moment: the end of the connection where no whole frame was received for 300 seconds, else a Ping where nothing was
    /// said for 90. O(1).
    pub fn tick(&self, moment: Moment) -> Tick
        ensures { result ≡ tick_at self.now.conversation.received self.now.conversation.said moment }
    {
        if timed_out(self.conversation.received, moment) {
            Tick::TimedOut
        } else if ping_due(self.conversation.said, moment) {
            Tick::PingDue
        } else {
            Tick::Nothing
        }
    }
}
