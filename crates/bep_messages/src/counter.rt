//! The Counter message, decoded and encoded: one device's counter of a version vector.
ghost use Rattle.std.specs.Prelude.{⊤, refl};
ghost use Rattle.bep_messages.specs.Protocol.{counter_table};
ghost use Rattle.bep_messages.specs.Structs.{counter_parts, counter};
ghost use Rattle.bep_messages.specs.Wholes.{counter_whole};

use crate::fault::MessageFault;
use crate::items::Copied;
use crate::message::ProtoMessage;
use crate::writer::Writer;
use crate::{copy_fields, empty_fields, take_field, write_rows};
use bep_wire::Field;
use std::alloc::{AllocError, Global};

/// How often one device changed a file (Block Exchange Protocol v1, "Fields of the Vector message").
#[derive(Debug, Drop)]
pub struct Counter {
    /// The first eight bytes of the device identity, big-endian.
    pub id: u64,
    pub value: u64,
}

macro_rules! fields {
    ($do:ident $($with:tt)*) => {
        $do! { $($with)*;
            1 id uint64;
            2 value uint64;
        }
    };
}

impl ProtoMessage for Counter {
    ghost table = { counter_table };

    ghost table_rises = { refl };

    ghost parts = { counter_parts };

    ghost whole = { counter };

    ghost whole_of_parts = { counter_whole };

    fn make_empty(alloc: Global) -> Counter {
        fields!(empty_fields Counter, alloc)
    }

    fn put(&mut self, alloc: Global, source: &[u8], field: Field) -> Result<(), MessageFault> {
        fields!(take_field self, alloc, source, field)
    }

    fn write(&self, out: &mut Writer) -> Result<(), AllocError> {
        fields!(write_rows self, out);
        Ok(())
    }
}

impl Copied for Counter {
    ghost needs_no_memory = { λ _. ⊤ };

    fn copy(&self) -> Result<Counter, AllocError> {
        fields!(copy_fields Counter, self)
    }
}
