//! Blocks that one end of a connection asks for, and the other serves.
ghost use Rattle.std.specs.Prelude.{◌≡◌, ⊤, IfOk, IfSome, OnOk, pos, true};
ghost use Rattle.bep_session.specs.Sessions.{said_at};
ghost use Rattle.file_store.specs.Trees.{bytes_of};
ghost use Rattle.block_server.specs.Served.{asked_of};
ghost use Rattle.proof_layers.specs.Heard.{IsOpen};

use crate::CarryFault;
use crate::saying::pass;
use bep_frames::Message;
use bep_messages::{Octets, Request, Response, ShortOctets, Text};
use bep_session::{Event, Session};
use block_server::answer;
use block_server::laws::bytes_are_those_that_were_asked_for;
use file_store::{FileStore, OpenGate};
use folder_calls::FolderCalls;
use std::alloc::{AllocError, Global};
use sync_blocks::Block;
use sync_names::SafeName;
use sync_pull::BlockSource;
use sync_record::DeviceId;
use sync_version::Moment;

/// The blocks of a store, served by its folder through two sessions.
#[derive(Drop)]
pub(crate) struct Served<'a, 'f, S, W> {
    pub(crate) alloc: Global,
    pub(crate) folder: &'f str,
    pub(crate) store: &'a mut S,
    pub(crate) calls: &'a mut W,
    pub(crate) server: &'a mut Session,
    pub(crate) asker: &'a mut Session,
    pub(crate) moment: Moment,
}

impl<S: FileStore, W: FolderCalls> BlockSource for Served<'_, '_, S, W> {
    ghost may_ask = { λ device. ⊤ };

    ghost gives = { λ _ _ _ _ _ _ _. ⊤ };

    fn fetch(
        &mut self,
        _device: DeviceId,
        name: &SafeName,
        block: &Block,
        bytes: &mut Vec<u8>,
    ) -> Result<bool, AllocError> {
        let Some(request) = request_of(self.alloc, self.asker, self.folder, name, block)? else {
            return Ok(false);
        };
        let given = ask(
            self.alloc,
            self.store,
            self.calls,
            self.server,
            self.asker,
            request,
            self.moment,
        );
        match given {
            Ok(Some(part)) => {
                bytes.clear();
                bytes.extend_from_slice(part.as_slice())?;
                Ok(true)
            }
            Err(CarryFault::OutOfMemory) => Err(AllocError),
            _ => Ok(false),
        }
    }
}

// A Request for a block, under an id that it opens; `None` if too many are open.
fn request_of(
    alloc: Global,
    asker: &mut Session,
    folder: &str,
    name: &SafeName,
    block: &Block,
) -> Result<Option<Request>, AllocError> {
    let Ok(id) = asker.ask() else {
        return Ok(None);
    };
    Ok(Some(Request {
        id,
        folder: Text::from_str(alloc, folder)?,
        name: Text::from_str(alloc, name.as_str())?,
        offset: i64::try_from(block.offset).unwrap_or(-1),
        size: i32::try_from(block.size).unwrap_or(-1),
        hash: ShortOctets::from_slice(alloc, &block.hash)?,
        from_temporary: false,
    }))
}

// Asks for a part, and returns the bytes that come with code 0: of a store that keeps what is written those that its file has there.
fn ask<S: FileStore, W: FolderCalls>(
    alloc: Global,
    store: &mut S,
    calls: &mut W,
    server: &mut Session,
    asker: &mut Session,
    request: Request,
    moment: Moment,
) -> Result<Option<Octets>, CarryFault>
    ensures { S.keeps ≡ true → IsOpen server.old → IsOpen asker.old → IfOk result (λ given. IfSome given
        (λ bytes. bytes ≡ asked_of request (bytes_of ((S.tree store.old).names request.name)))) }
{
    bytes_are_those_that_were_asked_for();
    let Some(request) = pass_request(alloc, asker, server, request, moment)? else {
        return Ok(None);
    };
    let response = answer(alloc, store, calls, &OpenGate, &request)?;
    let Some(response) = pass_response(alloc, server, asker, response, moment)? else {
        return Ok(None);
    };
    Ok(bytes_in(response))
}

// The bytes of a Response with code 0.
fn bytes_in(response: Response) -> Option<Octets>
    ensures { IfSome result (λ bytes. (response.code ≡ pos 0) × (bytes ≡ response.payload)) }
{
    if response.code == 0 {
        Some(response.payload)
    } else {
        None
    }
}

// A Request as the other end hears it.
fn pass_request(
    alloc: Global,
    from: &mut Session,
    to: &mut Session,
    request: Request,
    moment: Moment,
) -> Result<Option<Request>, CarryFault>
    ensures heard { IsOpen to.old → IfOk result (λ heard. IfSome heard (λ asked. asked ≡ request)) }
    ensures says { OnOk result (from.new ≡ said_at from.old moment) }
{
    let mut events = pass(alloc, from, to, &Message::Request(request), moment)?;
    match events.pop() {
        Some(Event::Asked(request)) => Ok(Some(request)),
        _ => Ok(None),
    }
}

// A Response as the other end hears it, if it waits for one.
fn pass_response(
    alloc: Global,
    from: &mut Session,
    to: &mut Session,
    response: Response,
    moment: Moment,
) -> Result<Option<Response>, CarryFault>
    ensures { IsOpen to.old → IfOk result (λ heard. IfSome heard (λ answered. answered ≡ response)) }
{
    let mut events = pass(alloc, from, to, &Message::Response(response), moment)?;
    match events.pop() {
        Some(Event::Answered(response)) => Ok(Some(response)),
        _ => Ok(None),
    }
}
