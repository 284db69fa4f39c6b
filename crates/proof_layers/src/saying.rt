//! What one end of a connection says, as the other hears it.
ghost use Rattle.std.specs.Prelude.{◌≡◌, [], false, true, IfOk, OnOk};
ghost use Rattle.bep_frames.specs.Grammar.{IsFrame};
ghost use Rattle.bep_frames.specs.Written.{message_frame};
ghost use Rattle.bep_frames.specs.declared.frame.Frame.TheVariants.{Hello as HelloFrame, Message as MessageFrame};
ghost use Rattle.bep_session.specs.Events.{after_frame};
ghost use Rattle.bep_session.specs.Sessions.{said_at};
ghost use Rattle.bep_frames.specs.declared.frame.Frame.{Frame};
ghost use Rattle.bep_frames.specs.declared.frame.Message.TheVariants.{ClusterConfig as ConfigMessage};
ghost use Rattle.bep_messages.specs.declared.cluster_config.ClusterConfig.{ClusterConfig as AnyConfig};
ghost use Rattle.bep_messages.specs.declared.hello.Hello.{Hello as AnyHello};
ghost use Rattle.proof_layers.specs.Heard.{HasHeardNothing, HearsAlone, IsLive, IsOpen};

use crate::CarryFault;
use bep_frames::laws::one_reading;
use bep_frames::{Message, write_hello};
use bep_messages::{ClusterConfig, Folder, Hello, Items, Text};
use bep_session::{Event, Session};
use std::alloc::{AllocError, Global};
use sync_version::Moment;

/// One end says a message, and the other hears it: the events of its frame.
///
/// Fails as [`Session::say`] and [`Session::feed`] do. O(n) for n bytes of the frame.
pub fn pass(
    alloc: Global,
    from: &mut Session,
    to: &mut Session,
    message: &Message,
    moment: Moment,
) -> Result<Vec<Event>, CarryFault>
    ensures heard { IsOpen to.old → IsLive (after_frame moment to.old.conversation (MessageFrame message.now)).conversation.stage →
        IfOk result (λ events. HearsAlone to.old (MessageFrame message.now) moment events.items to.new) }
    ensures says { OnOk result (from.new ≡ said_at from.old moment) }
{
    let frame = said(alloc, from, message, moment)?;
    Ok(hear(to, &frame, moment)?)
}

// The frame of a message that a session says. Read again, it is the message.
fn said(
    alloc: Global,
    session: &mut Session,
    message: &Message,
    moment: Moment,
) -> Result<Vec<u8>, CarryFault>
    ensures frame { IfOk result (λ frame. frame.items ≡ message_frame message.now) }
    ensures again { OnOk result (IsFrame false (message_frame message.now) (MessageFrame message.now)) }
    ensures says { OnOk result (session.new ≡ said_at session.old moment) }
{
    let mut frame = Vec::new(alloc);
    session.say(message, &mut frame, moment)?;
    Ok(frame)
}

// What a session hears of one frame.
fn hear(session: &mut Session, frame: &[u8], moment: Moment) -> Result<Vec<Event>, AllocError>
    ensures { (f : Frame) → session.old.rest ≡ [] → IsLive session.old.conversation.stage →
        IsFrame session.old.hello frame.now f → IsLive (after_frame moment session.old.conversation f).conversation.stage →
        IfOk result (λ events. HearsAlone session.old f moment events.items session.new) }
{
    one_reading();
    session.feed(frame, moment)
}

/// The two ends of a connection that has just begun: each said its Hello and a ClusterConfig with the folder, and heard those of the
/// other.
pub fn connect(
    alloc: Global,
    folder: &str,
    moment: Moment,
) -> Result<(Session, Session), CarryFault>
    ensures { IfOk result (λ ends. IsOpen ends.0 × IsOpen ends.1) }
{
    let mut one = Session::new(alloc, moment);
    let mut other = Session::new(alloc, moment);
    greet(alloc, folder, &mut one, &mut other, moment)?;
    greet(alloc, folder, &mut other, &mut one, moment)?;
    Ok((one, other))
}

// One end says its Hello and its ClusterConfig, and the other hears them.
fn greet(
    alloc: Global,
    folder: &str,
    from: &mut Session,
    to: &mut Session,
    moment: Moment,
) -> Result<(), CarryFault>
    ensures between { HasHeardNothing to.old → OnOk result (IsOpen to.new) }
    ensures says { OnOk result (from.new ≡ said_at from.old moment) }
{
    let hello = hello_frame(alloc)?;
    hear(to, &hello, moment)?;
    let config = config_of(alloc, folder)?;
    let frame = said(alloc, from, &config, moment)?;
    hear(to, &frame, moment)?;
    Ok(())
}

// The frame of a Hello.
fn hello_frame(alloc: Global) -> Result<Vec<u8>, CarryFault>
    ensures { IfOk result (λ frame. (m : AnyHello) × IsFrame true frame.items (HelloFrame m)) }
{
    let hello = Hello {
        device_name: Text::new(alloc),
        client_name: Text::from_str(alloc, "bepd")?,
        client_version: Text::new(alloc),
    };
    let mut frame = Vec::new(alloc);
    write_hello(&hello, &mut frame)?;
    Ok(frame)
}

// A ClusterConfig that has the folder, and tells no index.
fn config_of(alloc: Global, folder: &str) -> Result<Message, CarryFault>
    ensures { IfOk result (λ m. (config : AnyConfig) × (m ≡ ConfigMessage config)) }
{
    let mut folders = Items::new(alloc);
    folders.push(Folder {
        id: Text::from_str(alloc, folder)?,
        label: Text::new(alloc),
        read_only: false,
        ignore_permissions: false,
        ignore_delete: false,
        disable_temp_indexes: false,
        paused: false,
        devices: Items::new(alloc),
    })?;
    Ok(Message::ClusterConfig(ClusterConfig { folders }))
}
