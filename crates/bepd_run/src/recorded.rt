//! What is recorded of a folder when a run begins.
ghost use Rattle.std.specs.Prelude.{◌≡◌, ◌<◌, ◌+◌, ◌↔◌, IsTrue};
ghost use Rattle.bepd_run.specs.Marks.{is_stored, recorded_of};

use bep_messages::Text;
use folder_core::Counts;
use node_state::State;

/// What there is of a folder when a run begins.
#[derive(Clone, Copy, Debug, PartialEq, Eq)]
pub(crate) enum Recorded {
    /// Nothing is stored of it.
    Nothing,
    /// No files or directories are recorded of it, which are to be there.
    NoNames,
    /// Some are.
    Names,
}

/// What there is of a folder that is stored or isn't, by what is recorded of it.
pub(crate) fn recorded_of(is_stored: bool, counts: &Counts) -> Recorded
    ensures { result ≡ recorded_of is_stored counts.now }
{
    if has_names(counts) {
        Recorded::Names
    } else if is_stored {
        Recorded::NoNames
    } else {
        Recorded::Nothing
    }
}

/// Whether a folder of this id is stored.
pub(crate) fn is_stored(state: &State, id: &Text) -> bool
    ensures { result ≡ is_stored id.now state.now.folders }
{
    state
        .folders
        .as_slice()
        .iter()
        .any(|folder| folder.id.as_str() == id.as_str())
}

/// Whether files or directories are recorded of it, which are to be there.
pub(crate) fn has_names(counts: &Counts) -> bool
    ensures { IsTrue result ↔ (0 < counts.now.files + counts.now.directories) }
{
    counts.files != 0 || counts.directories != 0
}

/// Whether anything is recorded of it, be it a deletion.
pub(crate) fn is_known(counts: &Counts) -> bool
    ensures { IsTrue result ↔ (0 < counts.now.files + counts.now.directories + counts.now.deletions) }
{
    has_names(counts) || counts.deletions != 0
}
