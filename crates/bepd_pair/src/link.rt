//! What the two ends of the connection say to each other.
ghost use Rattle.std.specs.Prelude.{⊤};

use crate::command::Side;
use crate::peer::{Peer, device_of};
use bep_frames::{Message, write_hello};
use bep_messages::{
    ClusterConfig, Device, Folder, Hello, Items, Octets, Request, Response, ShortOctets, Text,
};
use bep_session::{Event, Session};
use block_server::answer;
use file_store::OpenGate;
use std::alloc::{AllocError, Global};
use sync_blocks::Block;
use sync_names::SafeName;
use sync_pull::BlockSource;
use sync_record::DeviceId;
use sync_version::Moment;

/// The id of the folder.
pub(crate) const FOLDER: &str = "f";

/// The frame of a message. Fails if out of memory: no message here is too long.
pub(crate) fn said(
    alloc: Global,
    session: &mut Session,
    message: &Message,
    moment: Moment,
) -> Result<Vec<u8>, AllocError> {
    let mut frame = Vec::new(alloc);
    match session.say(message, &mut frame, moment) {
        Ok(()) => Ok(frame),
        Err(_) => Err(AllocError),
    }
}

/// What each says first: its Hello, and which folder it shares.
pub(crate) fn greet(
    alloc: Global,
    side: Side,
    from: &mut Session,
    to: &mut Session,
    moment: Moment,
) -> Result<(), AllocError> {
    let mut frames = Vec::new(alloc);
    let hello = Hello {
        device_name: Text::from_str(alloc, side.letter())?,
        client_name: Text::from_str(alloc, "bepd")?,
        client_version: Text::new(alloc),
    };
    if write_hello(&hello, &mut frames).is_err() {
        return Err(AllocError);
    }
    let config = Message::ClusterConfig(config_of(alloc, side)?);
    let frame = said(alloc, from, &config, moment)?;
    frames.extend_from_slice(&frame)?;
    let _ = to.feed(&frames, moment)?;
    Ok(())
}

fn config_of(alloc: Global, side: Side) -> Result<ClusterConfig, AllocError> {
    let mut devices = Items::new(alloc);
    devices.push(device_in(alloc, side)?)?;
    devices.push(device_in(alloc, side.other())?)?;
    let mut folders = Items::new(alloc);
    folders.push(Folder {
        id: Text::from_str(alloc, FOLDER)?,
        label: Text::new(alloc),
        read_only: false,
        ignore_permissions: false,
        ignore_delete: false,
        disable_temp_indexes: false,
        paused: false,
        devices,
    })?;
    Ok(ClusterConfig { folders })
}

// The device, with its one index and never compression.
fn device_in(alloc: Global, side: Side) -> Result<Device, AllocError> {
    Ok(Device {
        id: Octets::from_slice(alloc, device_of(side).bytes().as_slice())?,
        name: Text::from_str(alloc, side.letter())?,
        addresses: Items::new(alloc),
        compression: 1,
        cert_name: Text::new(alloc),
        max_sequence: 0,
        introducer: false,
        index_id: 1,
        skip_introduction_removals: false,
    })
}

/// The blocks of the other peer, which are asked for and answered by frames.
#[derive(Drop)]
pub(crate) struct Link<'a> {
    pub(crate) alloc: Global,
    pub(crate) session: &'a mut Session,
    pub(crate) other: &'a mut Peer,
    pub(crate) other_session: &'a mut Session,
    pub(crate) moment: Moment,
}

impl BlockSource for Link<'_> {
    ghost may_ask = { λ device. ⊤ };

    ghost gives = { λ _ _ _ _ _ _ _. ⊤ };

    fn fetch(
        &mut self,
        _device: DeviceId,
        name: &SafeName,
        block: &Block,
        bytes: &mut Vec<u8>,
    ) -> Result<bool, AllocError> {
        let Some(request) = request_of(self.alloc, self.session, name, block)? else {
            return Ok(false);
        };
        let message = Message::Request(request);
        let asked = said(self.alloc, self.session, &message, self.moment)?;
        let answered = serve(
            self.alloc,
            self.other,
            self.other_session,
            &asked,
            self.moment,
        )?;
        take_answer(self.session, &answered, self.moment, bytes)
    }
}

// A Request for a block, under an id that it opens; `None` if too many are open.
fn request_of(
    alloc: Global,
    session: &mut Session,
    name: &SafeName,
    block: &Block,
) -> Result<Option<Request>, AllocError> {
    let Ok(id) = session.ask() else {
        return Ok(None);
    };
    Ok(Some(Request {
        id,
        folder: Text::from_str(alloc, FOLDER)?,
        name: Text::from_str(alloc, name.as_str())?,
        offset: i64::try_from(block.offset).unwrap_or(-1),
        size: i32::try_from(block.size).unwrap_or(-1),
        hash: ShortOctets::from_slice(alloc, &block.hash)?,
        from_temporary: false,
    }))
}

// Answers what a peer is asked by these bytes, and returns the frames.
fn serve(
    alloc: Global,
    peer: &mut Peer,
    session: &mut Session,
    asked: &[u8],
    moment: Moment,
) -> Result<Vec<u8>, AllocError> {
    let mut frames = Vec::new(alloc);
    let events = session.feed(asked, moment)?;
    for event in events {
        if let Event::Asked(request) = event {
            let response = answer_of(alloc, peer, &request)?;
            let frame = said(alloc, session, &Message::Response(response), moment)?;
            frames.extend_from_slice(&frame)?;
        }
    }
    Ok(frames)
}

fn answer_of(alloc: Global, peer: &mut Peer, request: &Request) -> Result<Response, AllocError> {
    answer(alloc, &mut peer.store, &mut peer.calls, &OpenGate, request)
}

// Takes the bytes of the Response in these frames, if it has any.
fn take_answer(
    session: &mut Session,
    frames: &[u8],
    moment: Moment,
    bytes: &mut Vec<u8>,
) -> Result<bool, AllocError> {
    let events = session.feed(frames, moment)?;
    let mut is_given = false;
    for event in events {
        if let Event::Answered(response) = event {
            if response.code == 0 {
                bytes.clear();
                bytes.extend_from_slice(response.payload.as_slice())?;
                is_given = true;
            }
        }
    }
    Ok(is_given)
}
