//! The frames of a piece, each received as it comes.
ghost use Rattle.std.specs.Prelude.{◌≡◌, ◌≢◌, [], None, OnOk, OnErr};
ghost use Rattle.bep_frames.specs.State.{fed, remaining};
ghost use Rattle.bep_session.specs.Progress.{IsCutShort, IsRead};
ghost use Rattle.bep_session.specs.declared.conversation.Stage.TheVariants.{Over};

use crate::conversation::{Conversation, Stage};
use crate::event::Event;
use crate::fault::SessionFault;
use bep_frames::FrameReader;
use std::alloc::AllocError;
use sync_version::Moment;

/// Takes a piece of the stream, and receives each frame that is then whole, up to the end of the session. Returns `Err` if allocation
/// fails, and then some of the first frames were received.
pub(crate) fn take_piece(
    reader: &mut FrameReader,
    conversation: &mut Conversation,
    piece: &[u8],
    moment: Moment,
    events: &mut Vec<Event>,
) -> Result<(), AllocError>
    requires live { conversation.old.stage ≢ Over }
    requires sound { reader.old.fault ≡ None }
    ensures ok { OnOk result (IsRead moment reader.old.hello (remaining (fed reader.old piece.now))
        conversation.old conversation.new events.old.items events.new.items reader.new) }
    ensures err { OnErr result (IsCutShort moment reader.old.hello (fed reader.old piece.now).rest conversation.old conversation.new) }
{
    reader.feed(piece)?;
    take_frames(reader, conversation, moment, events)
}

/// Receives each frame that is whole, up to the end of the session.
fn take_frames(
    reader: &mut FrameReader,
    conversation: &mut Conversation,
    moment: Moment,
    events: &mut Vec<Event>,
) -> Result<(), AllocError>
    requires live { conversation.old.stage ≢ Over }
    requires sound { reader.old.fault ≡ None }
    ensures ok { OnOk result (IsRead moment reader.old.hello (remaining (fed reader.old []))
        conversation.old conversation.new events.old.items events.new.items reader.new) }
    ensures err { OnErr result (IsCutShort moment reader.old.hello reader.old.rest conversation.old conversation.new) }
{
    while let Some(answer) = reader.next() {
        match answer {
            Ok(frame) => {
                if let Some(event) = conversation.receive(frame, moment) {
                    events.push(event)?;
                }
                if conversation.stage == Stage::Over {
                    return Ok(());
                }
            }
            Err(fault) => {
                let Some(fault) = SessionFault::of_stream(fault) else {
                    return Err(AllocError);
                };
                conversation.stage = Stage::Over;
                events.push(Event::Ended(fault))?;
                return Ok(());
            }
        }
    }
    Ok(())
}
