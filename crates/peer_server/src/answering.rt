//! The Response to one Request.
ghost use Rattle.std.specs.Prelude.{◌≡◌, IfErr, IfOk};
ghost use Rattle.block_server.specs.Served.{answers_code};
ghost use Rattle.block_server.specs.declared.code.Code.TheVariants.{NoSuchFile};
ghost use Rattle.peer_server.specs.Answered.{Answers, OneGoesOn, Responds, RunsOut};

use crate::request::{PeerRequest, ServerFolder};
use bep_messages::{Octets, Request, Response};
use block_server::{Code, answer};
use file_store::{FileStore, Gate};
use folder_calls::FolderCalls;
use std::alloc::{AllocError, Global};

/// The Response to a Request: that of the folder at the place that is asked for, or code 2 and no bytes where no folder is there.
pub(crate) fn respond<S: FileStore, W: FolderCalls, G: Gate>(
    alloc: Global,
    folders: &mut [ServerFolder<S, W>],
    gate: &G,
    asked: &PeerRequest,
) -> Result<Response, AllocError>
    ensures answers { IfOk result (λ response. Answers S.keeps S.tree W.folder W.view S.fault_count S.gives
        folders.old asked.now response folders.new) }
    ensures out_of_memory { IfErr result (λ _. OneGoesOn (RunsOut S.keeps S.tree W.folder W.view
        S.fault_count asked.now.request) folders.old asked.now folders.new) }
{
    match asked.folder {
        Some(place) if place < folders.len() => {
            serve_one(alloc, &mut folders[place], gate, &asked.request)
        }
        _ => Ok(refuse_unshared(alloc, &asked.request)),
    }
}

// The Response to a Request of this folder.
fn serve_one<S: FileStore, W: FolderCalls, G: Gate>(
    alloc: Global,
    folder: &mut ServerFolder<S, W>,
    gate: &G,
    request: &Request,
) -> Result<Response, AllocError>
    ensures responds { IfOk result (λ response. Responds S.keeps S.tree W.folder W.view S.fault_count
        S.gives request.now response folder.old folder.new) }
    ensures out_of_memory { IfErr result (λ _. RunsOut S.keeps S.tree W.folder W.view S.fault_count
        request.now folder.old folder.new) }
{
    let ServerFolder { store, calls } = folder;
    answer(alloc, store, calls, gate, request)
}

// The Response to a Request of a folder that is not shared. Does not allocate.
fn refuse_unshared(alloc: Global, request: &Request) -> Response
    ensures { result ≡ answers_code request.now NoSuchFile }
{
    Response {
        id: request.id,
        payload: Octets::new(alloc),
        code: Code::NoSuchFile.number(),
    }
}
