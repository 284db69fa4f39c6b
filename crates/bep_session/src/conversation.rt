//! The state of a connection: which message is due or may come next, what event it gives, and which Requests are open.
ghost use Rattle.std.specs.Prelude.{◌≡◌, ◌≢◌, [], IsTrue, if◌then◌else◌};
ghost use Rattle.bep_session.specs.Events.{Outcome, after_response, after_message, after_message_at, may_begin, after_frame};

use crate::event::Event;
use crate::fault::SessionFault;
use crate::ids::OpenIds;
use bep_frames::{Frame, Message};
use bep_messages::Response;
use std::alloc::Global;
use sync_version::Moment;

/// How far a connection has come.
#[derive(Clone, Copy, Debug, PartialEq, Eq)]
pub enum Stage {
    /// The peer's first ClusterConfig is due.
    Opening,
    /// It came.
    Running,
    /// Nothing more is read.
    Over,
}

/// What the frames so far, and what this side said and asked, leave behind.
#[derive(Debug, Drop)]
pub struct Conversation {
    pub(crate) asks: OpenIds,
    /// When the last message was said.
    pub(crate) said: Moment,
    /// When the last whole frame was received.
    pub(crate) received: Moment,
    pub(crate) stage: Stage,
}

impl Conversation {
    ghost use Rattle.bep_session.specs.declared.conversation.Stage.TheVariants.{Opening, Over};

    /// Nothing was received, said or asked yet. Does not allocate.
    pub(crate) fn new(alloc: Global, moment: Moment) -> Conversation
        ensures { result ≡ record { asks = []; said = moment; received = moment; stage = Opening } }
    {
        Conversation {
            asks: OpenIds::new(alloc),
            said: moment,
            received: moment,
            stage: Stage::Opening,
        }
    }

    /// Takes a frame that is received now, and returns its event. Does not allocate, and moves what the frame holds. O(log n) for
    /// n open ids.
    pub(crate) fn receive(&mut self, frame: Frame, moment: Moment) -> Option<Event>
        requires { self.old.stage ≢ Over }
        ensures { record { conversation = self.new; event = result } ≡ after_frame moment self.old frame }
    {
        self.received = moment;
        // The most frequent message of an idle connection: nothing of it need be moved.
        if self.stage == Stage::Running && is_ping(&frame) {
            return None;
        }
        match frame {
            Frame::Hello(hello) => Some(Event::PeerHello(hello)),
            Frame::Message(message) => self.receive_message(message),
            Frame::Unknown(kind) => Some(Event::Skipped(kind)),
        }
    }

    fn receive_message(&mut self, message: Message) -> Option<Event>
        requires { self.old.stage ≢ Over }
        ensures { record { conversation = self.new; event = result } ≡ after_message_at self.old.stage self.old message }
    {
        if self.stage == Stage::Opening && !may_begin(&message) {
            self.stage = Stage::Over;
            return Some(Event::Ended(SessionFault::NotClusterConfigFirst));
        }
        self.take(message)
    }

    fn take(&mut self, message: Message) -> Option<Event>
        ensures { record { conversation = self.new; event = result } ≡ after_message self.old message }
    {
        match message {
            Message::ClusterConfig(config) => {
                self.stage = Stage::Running;
                Some(Event::PeerConfig(config))
            }
            Message::Index(index) => Some(Event::Full(index)),
            Message::IndexUpdate(update) => Some(Event::More(update)),
            Message::Request(request) => Some(Event::Asked(request)),
            Message::Response(response) => Some(self.answer(response)),
            Message::DownloadProgress(_) | Message::Ping(_) => None,
            Message::Close(close) => {
                self.stage = Stage::Over;
                Some(Event::PeerClosed(close.reason))
            }
        }
    }

    fn answer(&mut self, response: Response) -> Event
        ensures { record { conversation = self.new; event = Some result } ≡ after_response self.old response }
    {
        if self.asks.remove(response.id) {
            Event::Answered(response)
        } else {
            Event::UnknownResponse(response.id)
        }
    }
}

fn is_ping(frame: &Frame) -> bool
    ensures { IsTrue result → frame.now ≡ Frame.Message (Message.Ping (record {})) }
{
    matches!(frame, Frame::Message(Message::Ping(_)))
}

/// Whether a message may be the first of a known type after the Hello.
fn may_begin(message: &Message) -> bool
    ensures { result ≡ may_begin message.now }
{
    matches!(message, Message::ClusterConfig(_) | Message::Close(_))
}
