//! What a store returns for an error.
ghost use Rattle.std.specs.Prelude.{◌≡◌, Ok, Err, IfErr, MatchResult};
ghost use Rattle.file_store.specs.declared.refusal.StoreRefusal.TheVariants.{StoreFault};

use file_store::StoreRefusal;
use std::io;
use std::io::ErrorKind;

/// A fault of the store in place of any error.
pub(crate) fn or_fault<T, E: Drop>(answer: Result<T, E>) -> Result<T, StoreRefusal>
    ensures value { MatchResult answer (λ value. result ≡ Ok value) (λ _. result ≡ Err StoreFault) }
    ensures refusal { IfErr result (λ refusal. refusal ≡ StoreFault) }
{
    match answer {
        Ok(value) => Ok(value),
        Err(_) => Err(StoreRefusal::StoreFault),
    }
}

/// A fault of the store in place of any error, of which it is noted whether the disk has no room, or the user none left on it.
pub(crate) fn or_no_room<T>(answer: io::Result<T>, lacks_room: &mut bool) -> Result<T, StoreRefusal>
    ensures value { MatchResult answer (λ value. result ≡ Ok value) (λ _. result ≡ Err StoreFault) }
    ensures refusal { IfErr result (λ refusal. refusal ≡ StoreFault) }
{
    if let Err(error) = &answer {
        *lacks_room = says_no_room(error.kind());
    }
    or_fault(answer)
}

fn says_no_room(kind: ErrorKind) -> bool {
    kind == ErrorKind::StorageFull || kind == ErrorKind::QuotaExceeded
}
