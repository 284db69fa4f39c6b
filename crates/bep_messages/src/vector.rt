//! The Vector message, decoded and encoded: a file's version vector, as a list of Counters.
ghost use Rattle.std.specs.Prelude.{◌≡◌, [], refl};
ghost use Rattle.bep_messages.specs.Protocol.{vector_table};
ghost use Rattle.bep_messages.specs.Structs.{vector_parts, vector};
ghost use Rattle.bep_messages.specs.Wholes.{vector_whole};

use crate::counter::Counter;
use crate::fault::MessageFault;
use crate::items::{Copied, Items};
use crate::message::ProtoMessage;
use crate::writer::Writer;
use crate::{copy_fields, empty_fields, take_field, write_rows};
use bep_wire::Field;
use std::alloc::{AllocError, Global};

/// Who changed a file how often (Block Exchange Protocol v1, "Fields of the FileInfo message").
#[derive(Debug, Drop)]
pub struct Vector {
    pub counters: Items<Counter>,
}

macro_rules! fields {
    ($do:ident $($with:tt)*) => {
        $do! { $($with)*;
            1 counters messages;
        }
    };
}

impl ProtoMessage for Vector {
    ghost table = { vector_table };

    ghost table_rises = { refl };

    ghost parts = { vector_parts };

    ghost whole = { vector };

    ghost whole_of_parts = { vector_whole };

    fn make_empty(alloc: Global) -> Vector {
        fields!(empty_fields Vector, alloc)
    }

    fn put(&mut self, alloc: Global, source: &[u8], field: Field) -> Result<(), MessageFault> {
        fields!(take_field self, alloc, source, field)
    }

    fn write(&self, out: &mut Writer) -> Result<(), AllocError> {
        fields!(write_rows self, out);
        Ok(())
    }
}

impl Copied for Vector {
    ghost needs_no_memory = { λ m. m.counters ≡ [] };

    fn copy(&self) -> Result<Vector, AllocError> {
        fields!(copy_fields Vector, self)
    }
}
