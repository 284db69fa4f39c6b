//! The id, index id and last sequence of a folder in a state file, decoded and encoded.
ghost use Rattle.std.specs.Prelude.{refl};
ghost use Rattle.node_state.specs.Reading.{front_table, front_parts, front_of};

use bep_messages::{
    MessageFault, ProtoMessage, Text, Writer, empty_fields, take_field, write_rows,
};
use bep_wire::Field;
use std::alloc::{AllocError, Global};

/// What a folder of a state file has beside its entries and peers, which are unknown fields here.
#[derive(Debug, Drop)]
pub(crate) struct Front {
    pub id: Text,
    pub index_id: u64,
    pub last: i64,
}

macro_rules! fields {
    ($do:ident $($with:tt)*) => {
        $do! { $($with)*;
            1 id words;
            2 index_id uint64;
            3 last int64;
        }
    };
}

impl ProtoMessage for Front {
    ghost table = { front_table };

    ghost table_rises = { refl };

    ghost parts = { front_parts };

    ghost whole = { front_of };

    ghost whole_of_parts = { λ _. refl };

    fn make_empty(alloc: Global) -> Front {
        fields!(empty_fields Front, alloc)
    }

    fn put(&mut self, alloc: Global, source: &[u8], field: Field) -> Result<(), MessageFault> {
        fields!(take_field self, alloc, source, field)
    }

    fn write(&self, out: &mut Writer) -> Result<(), AllocError> {
        fields!(write_rows self, out);
        Ok(())
    }
}
