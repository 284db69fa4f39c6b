//! What a pull changes at a name.
ghost use Rattle.std.specs.Prelude.{◌≡◌};
ghost use Rattle.node_pull.specs.Changes.{change_of};

use node_context::Change;
use sync_record::{Record, same_content};

/// What it changes that the best is pulled of a name, of which this is recorded here. O(n) for n blocks.
pub(crate) fn change_of(local: &Option<Record>, best: &Record) -> Change
    ensures { result ≡ change_of local.now best.now }
{
    match local {
        None if best.is_deleted() => Change::Same,
        None => Change::Got,
        Some(local) if same_content(local, best) => Change::Same,
        Some(_) if best.is_deleted() => Change::Deleted,
        Some(local) if local.is_deleted() => Change::Got,
        Some(_) => Change::Replaced,
    }
}
