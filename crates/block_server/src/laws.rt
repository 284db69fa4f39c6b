//! The laws of served answers. A law is a function that does nothing, whose contract says of the definitions in `specs/` what
//! follows from them in plainer words.
ghost use Rattle.std.specs.Prelude.{◌≡◌, ◌≢◌, ◌⊎◌, Bool, ℕ, pos, [], List, Option, None, drop, length, take, true};
ghost use Rattle.sha2.specs.Sha256.{sha256};
ghost use Rattle.sync_record.specs.Infos.{natural};
ghost use Rattle.sync_record.specs.Records.{FileRecord};
ghost use Rattle.bep_messages.specs.declared.request.Request.{Request};
ghost use Rattle.bep_messages.specs.declared.response.Response.{Response};
ghost use Rattle.block_server.specs.PartsGiven.{GivesPart, ServesGiven};
ghost use Rattle.block_server.specs.Served.{Serves, answers_code, refused};
ghost use Rattle.block_server.specs.declared.code.Code.TheVariants.{Generic};

use file_store::FileStore;

/// Code 0 is answered only with as many bytes as were asked for, that have the digest that was asked for, if one was, of a valid
/// live local file, and of a store that keeps what is written with just the bytes that the file has there; the store has then
/// not failed. No other code comes with bytes, and the id is always that of the request.
pub fn bytes_are_those_that_were_asked_for()
    ensures id { (keeps : Bool) (q : Request) (r : Option FileRecord) (file : List ℕ)
        (faults : ℕ) (response : Response) (after : ℕ) →
        Serves keeps q r file faults response after → response.id ≡ q.id }
    // One of two: code 0, and then all of this holds of the bytes; or another code, and no bytes.
    ensures code { (keeps : Bool) (q : Request) (r : Option FileRecord) (file : List ℕ)
        (faults : ℕ) (response : Response) (after : ℕ) →
        Serves keeps q r file faults response after →
        ((response.code ≡ pos 0) × (after ≡ faults) × (refused q r ≡ None)
        × (length response.payload ≡ natural q.size)
        × ((q.hash ≡ []) ⊎ (sha256 response.payload ≡ q.hash))
        × (keeps ≡ true → response.payload ≡ take (natural q.size) (drop (natural q.offset) file)))
        ⊎ ((response.payload ≡ []) × (response.code ≢ pos 0)) }
{}

/// A fault of the store comes with code 1, and only where no test refuses the request.
pub fn faults_are_answered_with_code_1()
    // A fault was counted while the request was served: then no test refused it, and it got code 1.
    ensures { (keeps : Bool) (q : Request) (r : Option FileRecord) (file : List ℕ)
        (faults : ℕ) (response : Response) (after : ℕ) →
        Serves keeps q r file faults response after → after ≢ faults →
        (refused q r ≡ None) × (response ≡ answers_code q Generic) }
{}

/// Of every store, whether it keeps what is written or not: bytes come with code 0 only, and are those that the store gave for this
/// request, from the asked offset on and as many as were asked for.
pub fn bytes_are_those_that_the_store_gave<S: FileStore>()
    // Bytes of code 0 are the asked part that the store gave: name, offset and size are those of the request.
    ensures { (q : Request) (r : Option FileRecord) (old new : S) (response : Response) →
        ServesGiven S.gives q r old response new → response.code ≡ pos 0 →
        GivesPart S.gives q.name (natural q.offset) (natural q.size) old (Some response.payload) new }
{}
