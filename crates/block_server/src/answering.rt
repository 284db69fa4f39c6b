//! The Response to a peer's Request: its name, range and digest checked, and the block's bytes read from the store.
ghost use Rattle.std.specs.Prelude.{◌≡◌, ◌⊎◌, IfErr, IfOk, IsOk, IsSome, true};
ghost use Rattle.file_store.specs.Trees.{bytes_of};
ghost use Rattle.folder_calls.specs.Shared.{Sees, now};
ghost use Rattle.folder_core.specs.States.{local};
ghost use Rattle.sync_names.specs.Refusal.{shape_refusal};
ghost use Rattle.block_server.specs.PartsGiven.{ServesGiven};
ghost use Rattle.block_server.specs.Served.{Serves, answers_code, has_digest};

use crate::Code;
use crate::part::asked_part;
use crate::reading::read_part;
use bep_messages::{Octets, Request, Response};
use file_store::{FileStore, Gate, GatePlace};
use folder_calls::FolderCalls;
use sha2::{Digest, Sha256};
use std::alloc::{AllocError, Global};

/// The answer to a peer's request, by the first of these that applies: code 2 if it asks for a temporary file; 3 if its name
/// is not safe; 2 if there is no valid live local file of that name; 3 if the offset or the size is negative, the size is over
/// 16 MiB, or the part goes past the size of the record; 1 if the store fails or has fewer bytes there; 2 if a digest
/// is asked for and the bytes have another. Else code 0 with the bytes.
///
/// The gate is passed before the read of the folder, before each read of the store, and before the digest. Returns `Err` only
/// if out of memory, and never before the name was found to have the shape of a safe one. The bytes are read once, into the
/// answer's own memory, and no more than are asked for; where the store says that it has fewer, none are read. O(n) for n bytes of the
/// name and the part.
pub fn answer<S: FileStore, W: FolderCalls, G: Gate>(
    alloc: Global,
    store: &mut S,
    calls: &mut W,
    gate: &G,
    request: &Request,
) -> Result<Response, AllocError>
    // One relation between the request, the folder's record, the file's bytes, the faults and the response.
    ensures serves { IfOk result (λ response. Serves S.keeps request.now
        (local (now (W.view calls.new)) request.now.name)
        (bytes_of ((S.tree store.old).names request.now.name)) (S.fault_count store.old) response
        (S.fault_count store.new)) }
    ensures given { IfOk result (λ response. ServesGiven S.gives request.now
        (local (now (W.view calls.new)) request.now.name) store.old response store.new) }
    ensures folder { W.folder calls.new ≡ W.folder calls.old }
    ensures sees { Sees (W.view calls.old) (W.view calls.new) }
    ensures kept { S.keeps ≡ true → S.tree store.new ≡ S.tree store.old }
    ensures out_of_memory { IfErr result (λ _. S.fault_count store.new ≡ S.fault_count store.old) }
    ensures free { (request.now.from_temporary ≡ true) ⊎ IsSome (shape_refusal request.now.name) →
        IsOk result }
{
    let part = match asked_part(alloc, calls, gate, request)? {
        Ok(part) => part,
        Err(code) => return Ok(refuse(alloc, request, code)),
    };
    let Some(bytes) = read_part(alloc, store, gate, &part)? else {
        return Ok(refuse(alloc, request, Code::Generic));
    };
    if !has_digest(gate, request, bytes.as_slice()) {
        return Ok(refuse(alloc, request, Code::NoSuchFile));
    }
    Ok(Response {
        id: request.id,
        payload: bytes,
        code: 0,
    })
}

// The answer with this code and no bytes. Does not allocate.
fn refuse(alloc: Global, request: &Request, code: Code) -> Response
    ensures { result ≡ answers_code request.now code }
{
    Response {
        id: request.id,
        payload: Octets::new(alloc),
        code: code.number(),
    }
}

// Whether the bytes have the digest that is asked for, if one is.
fn has_digest<G: Gate>(gate: &G, request: &Request, bytes: &[u8]) -> bool
    ensures { result ≡ has_digest request.now.hash bytes.now }
{
    let hash = request.hash.as_slice();
    if hash.is_empty() {
        return true;
    }
    gate.at(GatePlace::Digest);
    Sha256::digest(bytes).as_slice() == hash
}
