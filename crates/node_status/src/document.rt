//! The status of a node as one JSON document, in one line, for programs.
ghost use Rattle.std.specs.Prelude.{◌≡◌, IfOk, string_bytes};
ghost use Rattle.json.specs.Lex.{tokens};
ghost use Rattle.json.specs.Print.{print};

use crate::Status;
use std::alloc::{AllocError, Global};

/// The status as one JSON document, in one line: an object with the fields of [`Status`], an enum by its variant's name, and what isn't there as
/// null. O(n). Returns `Err` only if out of memory.
pub fn json_of(alloc: Global, status: &Status) -> Result<String, AllocError>
    ensures { IfOk result (λ text. string_bytes text ≡ print (tokens (string_bytes text))) }
{
    match serde_json::to_string(alloc, status) {
        Ok(text) => Ok(text),
        Err(_) => Err(AllocError),
    }
}
