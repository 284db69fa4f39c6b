//! The plan of a pull in a journal, decoded and encoded: the version that is replaced, and what is put in its place.
ghost use Rattle.std.specs.Prelude.{refl};
ghost use Rattle.node_journal.specs.Tables.{plan_table};
ghost use Rattle.node_journal.specs.Messages.{plan_parts, plan_of, plan_whole};

use bep_messages::{
    FileInfo, MessageFault, ProtoMessage, Vector, Writer, empty_fields, take_field, write_rows,
};
use bep_wire::Field;
use std::alloc::{AllocError, Global};

/// What a pull is about to put in place of a name.
#[derive(Debug, Drop)]
pub struct Plan {
    /// Whether there was a local record when the pull was begun.
    pub has_base: bool,
    /// The version of that record; of no meaning where there was none.
    pub base: Vector,
    /// What is put in place, under its name.
    pub target: FileInfo,
}

macro_rules! fields {
    ($do:ident $($with:tt)*) => {
        $do! { $($with)*;
            1 has_base boolean;
            2 base message;
            3 target message;
        }
    };
}

impl ProtoMessage for Plan {
    ghost table = { plan_table };

    ghost table_rises = { refl };

    ghost parts = { plan_parts };

    ghost whole = { plan_of };

    ghost whole_of_parts = { plan_whole };

    fn make_empty(alloc: Global) -> Plan {
        fields!(empty_fields Plan, alloc)
    }

    fn put(&mut self, alloc: Global, source: &[u8], field: Field) -> Result<(), MessageFault> {
        fields!(take_field self, alloc, source, field)
    }

    fn write(&self, out: &mut Writer) -> Result<(), AllocError> {
        fields!(write_rows self, out);
        Ok(())
    }
}
