//! Which names are scanned again soon.
ghost use Rattle.std.specs.Prelude.{◌≡◌};
ghost use Rattle.node_folder.specs.LeftOver.{is_left_over, is_record, is_recorded, is_unrecorded};

use file_store::StoreRefusal;
use folder_core::ScanAnswer;
use sync_scan::Scanned;

/// Whether a change of the name was recorded.
pub fn is_recorded(scanned: &Result<Scanned, StoreRefusal>) -> bool
    ensures { result ≡ is_recorded scanned.now }
{
    match scanned {
        Ok(scanned) => is_record(scanned),
        Err(_) => false,
    }
}

fn is_record(scanned: &Scanned) -> bool
    ensures { result ≡ is_record scanned.now }
{
    match scanned {
        Scanned::Answered(Ok(answer)) => matches!(answer, ScanAnswer::Recorded(_)),
        Scanned::Answered(Err(_)) | Scanned::Skipped | Scanned::Changing => false,
    }
}

/// Whether a name is to be scanned again, after a scan that came to this: it was not recorded, though it may be the next time. What is neither a file nor
/// a directory, or too large, is looked at again only once it changes.
pub fn is_left_over(scanned: &Result<Scanned, StoreRefusal>) -> bool
    ensures { result ≡ is_left_over scanned.now }
{
    match scanned {
        Ok(scanned) => is_unrecorded(scanned),
        Err(_) => true,
    }
}

fn is_unrecorded(scanned: &Scanned) -> bool
    ensures { result ≡ is_unrecorded scanned.now }
{
    match scanned {
        Scanned::Answered(Ok(answer)) => !matches!(
            answer,
            ScanAnswer::Recorded(_) | ScanAnswer::Unchanged
        ),
        Scanned::Answered(Err(_)) => true,
        Scanned::Skipped => false,
        Scanned::Changing => true,
    }
}
