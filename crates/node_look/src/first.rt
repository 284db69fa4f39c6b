//! The names that are scanned first after a start: those that may have changed while nobody looked.
use crate::look::{Look, safe_name};
use crate::recorded::may_be;
use crate::restless::DueName;
use folder_calls::FolderCalls;
use std::alloc::AllocError;

/// How many times as many bytes as the files that are scanned first the folder must have: else the scan of all, which reads them once more, is as soon done.
const PART: u64 = 8;

/// The names of files whose size or time is not that of their record, or that have none. None where they are too large a part of the folder.
pub(crate) fn first_names<W: FolderCalls>(
    look: &Look,
    calls: &mut W,
) -> Result<Vec<DueName>, AllocError> {
    let mut first = Vec::new(look.alloc);
    let (mut bytes, mut all) = (0u64, 0u64);
    for (directory, seen) in look.directories.iter() {
        for place in 0..seen.table.len() {
            let Some((last, facts)) = seen.table.get(place) else {
                break;
            };
            let Ok(last) = std::str::from_utf8(last) else {
                continue;
            };
            let Some(name) = safe_name(look.alloc, directory.as_str(), last)? else {
                continue;
            };
            all = all.saturating_add(facts.size);
            let is_same = match calls.local(&name)?.value {
                Some(record) => may_be(&record, facts),
                None => false,
            };
            if !is_same {
                bytes = bytes.saturating_add(facts.size);
                first.push(DueName::now(name, Some(facts)))?;
            }
        }
    }
    if bytes.saturating_mul(PART) >= all {
        first.clear();
    }
    Ok(first)
}
