//! A page of records as FileInfos, for an Index or IndexUpdate message.
ghost use Rattle.std.specs.Prelude.{◌≡◌, [], All, IfOk, IsOk, None, map};
ghost use Rattle.sync_names.specs.Refusal.{refusal};
ghost use Rattle.sync_record.specs.Infos.{info_of, record_of};

use bep_messages::{FileInfo, Items};
use std::alloc::{AllocError, Global};
use sync_record::Record;

/// The records of a page as an Index or an IndexUpdate has them, in their order; read again, they are the same records.
///
/// Returns `Err` only if out of memory, and never for no records. O(n) for n bytes of names, counters and blocks.
pub fn file_infos(alloc: Global, records: &[Record]) -> Result<Items<FileInfo>, AllocError>
    ensures value { IfOk result (λ infos. infos ≡ map info_of records.now) }
    ensures again { IfOk result (λ infos. map record_of infos ≡ records.now) }
    // No name is refused where it is read.
    ensures safe { IfOk result (λ infos. All (λ info. refusal info.name ≡ None) infos) }
    ensures none { records.now ≡ [] → IsOk result }
{
    let mut infos = Vec::with_capacity(alloc, records.len())?;
    for record in records {
        infos.push(record.to_info()?)?;
    }
    Ok(Items::from_vec(infos))
}
