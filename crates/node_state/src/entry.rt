//! A device's record of a name in a state file, decoded and encoded.
ghost use Rattle.std.specs.Prelude.{refl};
ghost use Rattle.node_state.specs.Tables.{entry_table};
ghost use Rattle.node_state.specs.Parts.{entry_parts, entry_of, entry_whole};

use bep_messages::{
    FileInfo, MessageFault, ProtoMessage, ShortOctets, Writer, empty_fields, take_field, write_rows,
};
use bep_wire::Field;
use std::alloc::{AllocError, Global};

/// What a device announces of a name, as it stands in a state file.
#[derive(Debug, Drop)]
pub(crate) struct Entry {
    pub device: ShortOctets,
    pub file: FileInfo,
}

macro_rules! fields {
    ($do:ident $($with:tt)*) => {
        $do! { $($with)*;
            1 device digest;
            2 file message;
        }
    };
}

impl ProtoMessage for Entry {
    ghost table = { entry_table };

    ghost table_rises = { refl };

    ghost parts = { entry_parts };

    ghost whole = { entry_of };

    ghost whole_of_parts = { entry_whole };

    fn make_empty(alloc: Global) -> Entry {
        fields!(empty_fields Entry, alloc)
    }

    fn put(&mut self, alloc: Global, source: &[u8], field: Field) -> Result<(), MessageFault> {
        fields!(take_field self, alloc, source, field)
    }

    fn write(&self, out: &mut Writer) -> Result<(), AllocError> {
        fields!(write_rows self, out);
        Ok(())
    }
}
