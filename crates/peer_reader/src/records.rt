//! The records of an index.
ghost use Rattle.std.specs.Prelude.{◌≡◌, IfOk};
ghost use Rattle.peer_reader.specs.Records.{kept_records, skipped_count};

use bep_messages::{FileInfo, Items};
use std::alloc::{AllocError, Global};
use std::collections::VecDeque;
use sync_names::NameFault;
use sync_record::Record;

/// Records whose names are safe, and how many were skipped.
#[derive(Drop)]
pub(crate) struct SafeRecords {
    pub(crate) records: Items<Record>,
    pub(crate) skipped: u64,
}

/// The records whose names are safe, in order; the others are counted. Fails only if out of memory. O(n) for n records and what they
/// hold, which is moved.
pub(crate) fn keep(alloc: Global, files: Items<FileInfo>) -> Result<SafeRecords, AllocError>
    ensures records { IfOk result (λ kept. kept.records ≡ kept_records files) }
    ensures skipped { IfOk result (λ kept. kept.skipped ≡ skipped_count files) }
{
    let count = files.as_slice().len();
    let mut files = VecDeque::from_vec(files.into_vec());
    let mut records = Vec::with_capacity(alloc, count)?;
    while let Some(info) = files.pop_front() {
        match Record::from_info(alloc, info) {
            Ok(record) => {
                records.push(record)?;
            }
            Err(NameFault::OutOfMemory) => return Err(AllocError),
            Err(_) => {}
        }
    }
    let skipped = count - records.len();
    Ok(SafeRecords {
        records: Items::from_vec(records),
        skipped: skipped as u64,
    })
}
