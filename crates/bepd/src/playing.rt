//! How `bepd pair` ends.
ghost use Rattle.std.specs.Prelude.{◌≡◌};
ghost use Rattle.bepd.specs.Playing.{played_ending};

use crate::ending::{Ending, Failure};
use bepd_pair::PairFailure;

/// The ending of a program whose peers ended so.
pub(crate) fn ending_of(played: Result<(), PairFailure>) -> Ending
    ensures { result ≡ played_ending played }
{
    match played {
        Ok(()) => Ending::Done,
        Err(PairFailure::OutOfMemory) => Ending::Failed(Failure::OutOfMemory),
        Err(PairFailure::Read) => Ending::Failed(Failure::Read),
        Err(PairFailure::Write) => Ending::Failed(Failure::Write),
    }
}
