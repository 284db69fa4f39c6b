//! What a folder was when it was opened, as clauses read it.
ghost use Rattle.std.specs.Prelude.{◌≡◌, IfOk};

use atomic_table::{Perch, Table, TableRule};
use folder_calls::RecordedFolder;
use folder_core::FolderCore;
use std::alloc::{AllocError, Global};

/// The first history. It is one word, which no code reads; unlike a `Snapshot`, it is found to be `Sync` beside the ends of a channel.
pub type Mark<C> = Perch<Option<()>, RecordedFolder<C>>;

/// The rule of a table without words and slots.
pub struct Unruled;

impl<C: FolderCore> TableRule<Option<()>, RecordedFolder<C>, RecordedFolder<C>> for Unruled {
    ghost holds = { λ recorded state. Unit {0} };

    ghost first = { λ recorded. recorded };
}

/// A mark of this history. It keeps no memory; it needs some while it is made.
pub(crate) fn marked<C: FolderCore + Drop>(
    alloc: Global,
    recorded: &RecordedFolder<C>,
) -> Result<Mark<C>, AllocError>
    ensures { IfOk result (λ mark. mark.view ≡ recorded.now) }
{
    let (_, seat) = Table::<
        Option<()>,
        RecordedFolder<C>,
        RecordedFolder<C>,
        Unruled,
        Global,
    >::vacant(alloc, &[], 0, recorded)?;
    Ok(Perch::new(&seat, 0))
}
