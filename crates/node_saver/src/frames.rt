//! The frames of a folder.
ghost use Rattle.std.specs.Prelude.{◌≡◌, IfOk, OnOk, option_copied};
ghost use Rattle.std.specs.List.{AllByRecursion};
ghost use Rattle.node_saver.specs.Frames.{closing_frame, frame_of, last_of, plan_over, plans_frame, records_frame};
ghost use Rattle.node_saver.specs.Saving.{IsReadAgain};

use bep_messages::{FileInfo, Items, ShortOctets, Text, Vector};
use index_sender::file_infos;
use node_journal::{Frame, Part, Plan};
use std::alloc::{AllocError, Global};
use sync_record::Record;

/// A folder, as its frames name it.
#[derive(Debug, Drop)]
pub struct SavedFolder {
    pub id: Text,
    /// The number of this device's index of the folder.
    pub index_id: u64,
}

/// The frame of records of a folder, in rising sequence. O(n) for n bytes of names, counters and blocks.
pub(crate) fn records_frame(
    alloc: Global,
    folder: &SavedFolder,
    records: &[Record],
) -> Result<Frame, AllocError>
    ensures value { IfOk result (λ frame. frame ≡ records_frame folder.now records.now) }
    ensures again { OnOk result (AllByRecursion IsReadAgain records.now) }
{
    frame_of(
        alloc,
        Part {
            id: Text::from_str(alloc, folder.id.as_str())?,
            index_id: folder.index_id,
            last: last_sequence(records),
            records: file_infos(alloc, records)?,
            plans: Items::new(alloc),
        },
    )
}

/// The frame of pulls of a folder, which may put their targets in place once it is kept.
pub fn plans_frame(
    alloc: Global,
    folder: &SavedFolder,
    plans: Items<Plan>,
) -> Result<Frame, AllocError>
    ensures { IfOk result (λ frame. frame ≡ plans_frame folder.now plans) }
{
    frame_of(
        alloc,
        Part {
            id: Text::from_str(alloc, folder.id.as_str())?,
            index_id: folder.index_id,
            last: 0,
            records: Items::new(alloc),
            plans,
        },
    )
}

/// The plan of a pull that began over this local record, if there was one, and fetches the target. O(n) for n bytes of names, counters and blocks.
pub fn plan_over(alloc: Global, base: Option<&Record>, target: &Record) -> Result<Plan, AllocError>
    ensures { IfOk result (λ plan. plan ≡ plan_over (option_copied base.entry) target.now) }
{
    let target = target.to_info()?;
    Ok(match base {
        Some(base) => {
            let FileInfo { version, .. } = base.to_info()?;
            Plan {
                has_base: true,
                base: version,
                target,
            }
        }
        None => Plan {
            has_base: false,
            base: Vector {
                counters: Items::new(alloc),
            },
            target,
        },
    })
}

/// The frame that ends a batch: those before it count from then on. Does not allocate.
pub fn closing_frame(alloc: Global) -> Frame
    ensures { result ≡ closing_frame }
{
    Frame {
        is_whole: true,
        folders: Items::new(alloc),
        mark: ShortOctets::new(alloc),
    }
}

fn frame_of(alloc: Global, part: Part) -> Result<Frame, AllocError>
    ensures { IfOk result (λ frame. frame ≡ frame_of part) }
{
    let mut folders = Items::new(alloc);
    folders.push(part)?;
    Ok(Frame {
        is_whole: false,
        folders,
        mark: ShortOctets::new(alloc),
    })
}

// The sequence of the last record, or 0 where there is none.
fn last_sequence(records: &[Record]) -> i64
    ensures { result ≡ last_of records.now }
{
    match records.last() {
        Some(record) => record.sequence() as i64,
        None => 0,
    }
}
