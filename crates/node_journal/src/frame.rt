//! A frame of the journal, decoded and encoded: parts of folders, whether a batch ends, a state file's digest.
ghost use Rattle.std.specs.Prelude.{refl};
ghost use Rattle.node_journal.specs.Tables.{frame_table};
ghost use Rattle.node_journal.specs.Messages.{frame_parts, frame_of, frame_whole};

use crate::part::Part;
use bep_messages::{
    Items, MessageFault, ProtoMessage, ShortOctets, Writer, empty_fields, take_field, write_rows,
};
use bep_wire::Field;
use std::alloc::{AllocError, Global};

/// What is appended to a journal at once.
#[derive(Debug, Drop)]
pub struct Frame {
    /// Whether it ends a batch: frames that no whole one follows don't count.
    pub is_whole: bool,
    pub folders: Items<Part>,
    /// The SHA-256 digest of a state file that has all that stands before, or no bytes.
    pub mark: ShortOctets,
}

macro_rules! fields {
    ($do:ident $($with:tt)*) => {
        $do! { $($with)*;
            1 is_whole boolean;
            2 folders messages;
            3 mark digest;
        }
    };
}

impl ProtoMessage for Frame {
    ghost table = { frame_table };

    ghost table_rises = { refl };

    ghost parts = { frame_parts };

    ghost whole = { frame_of };

    ghost whole_of_parts = { frame_whole };

    fn make_empty(alloc: Global) -> Frame {
        fields!(empty_fields Frame, alloc)
    }

    fn put(&mut self, alloc: Global, source: &[u8], field: Field) -> Result<(), MessageFault> {
        fields!(take_field self, alloc, source, field)
    }

    fn write(&self, out: &mut Writer) -> Result<(), AllocError> {
        fields!(write_rows self, out);
        Ok(())
    }
}
