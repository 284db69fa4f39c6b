//! The law of what a server puts. A law is a function that does nothing, whose contract says of the definitions in `specs/` what
//! follows from them in plainer words.
ghost use Rattle.std.specs.Prelude.{◌≡◌, ℕ, ◌≤◌, ◌∷◌, ◌++◌, List, Some, length, slice_get};
ghost use Rattle.bep_messages.specs.declared.response.Response.{Response};
ghost use Rattle.block_server.specs.Served.{answers_code};
ghost use Rattle.block_server.specs.declared.code.Code.TheVariants.{NoSuchFile};
ghost use Rattle.peer_server.specs.Served.{AnswersEach, IsAnswerOf};
ghost use Rattle.peer_server.specs.declared.request.PeerRequest.{PeerRequest};
ghost use Rattle.peer_server.specs.declared.request.ServerFolder.{ServerFolder};

use file_store::FileStore;
use folder_calls::FolderCalls;

/// Of requests that were answered one after the other, each response is the right one for its request: where a folder is at the place
/// that was asked for, that of this folder, between what it was at the start and what it came to at the end; else code 2.
pub fn each_response_is_of_its_folder<S: FileStore, W: FolderCalls>()
    // The response is that of the folder at the asked place. A premise each: requests, place, its start and its end.
    ensures shared { (old new : List (ServerFolder S W)) (front back : List (PeerRequest × Response))
        (asked : PeerRequest) (response : Response) (place : ℕ) (start end : ServerFolder S W) →
        AnswersEach S.keeps S.tree W.folder W.view S.fault_count S.gives old
        (front ++ (asked, response) ∷ back) new →
        asked.folder ≡ Some place → slice_get old place ≡ Some start →
        slice_get new place ≡ Some end →
        IsAnswerOf S.keeps S.tree W.folder W.view S.fault_count S.gives start end asked.request
        response }
    // No folder is at the asked place, or none was asked for: then it is code 2. The first premise is the same.
    ensures not_shared { (old new : List (ServerFolder S W))
        (front back : List (PeerRequest × Response)) (asked : PeerRequest) (response : Response) →
        AnswersEach S.keeps S.tree W.folder W.view S.fault_count S.gives old
        (front ++ (asked, response) ∷ back) new →
        ((place : ℕ) → asked.folder ≡ Some place → length old ≤ place) →
        response ≡ answers_code asked.request NoSuchFile }
{}
