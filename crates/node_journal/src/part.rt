//! What a journal's frame has of a folder, decoded and encoded: index id, last sequence, records, plans of pulls.
ghost use Rattle.std.specs.Prelude.{refl};
ghost use Rattle.node_journal.specs.Tables.{part_table};
ghost use Rattle.node_journal.specs.Messages.{part_parts, part_of, part_whole};

use crate::plan::Plan;
use bep_messages::{
    FileInfo, Items, MessageFault, ProtoMessage, Text, Writer, empty_fields, take_field, write_rows,
};
use bep_wire::Field;
use std::alloc::{AllocError, Global};

/// What a frame keeps of a folder.
#[derive(Debug, Drop)]
pub struct Part {
    /// The folder's id.
    pub id: Text,
    /// The number of this device's index of the folder, or 0 where the frame says none.
    pub index_id: u64,
    /// The last sequence that this device gave, as far as its records are kept.
    pub last: i64,
    /// Records of this device, by rising sequence.
    pub records: Items<FileInfo>,
    /// Pulls whose targets may be put in place from now on.
    pub plans: Items<Plan>,
}

macro_rules! fields {
    ($do:ident $($with:tt)*) => {
        $do! { $($with)*;
            1 id words;
            2 index_id uint64;
            3 last int64;
            4 records messages;
            6 plans messages;
        }
    };
}

impl ProtoMessage for Part {
    ghost table = { part_table };

    ghost table_rises = { refl };

    ghost parts = { part_parts };

    ghost whole = { part_of };

    ghost whole_of_parts = { part_whole };

    fn make_empty(alloc: Global) -> Part {
        fields!(empty_fields Part, alloc)
    }

    fn put(&mut self, alloc: Global, source: &[u8], field: Field) -> Result<(), MessageFault> {
        fields!(take_field self, alloc, source, field)
    }

    fn write(&self, out: &mut Writer) -> Result<(), AllocError> {
        fields!(write_rows self, out);
        Ok(())
    }
}
