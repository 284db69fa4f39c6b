//! The Ping message, decoded and encoded, which has no fields: it keeps a connection alive.
ghost use Rattle.std.specs.Prelude.{⊤, refl};
ghost use Rattle.bep_messages.specs.Protocol.{ping_table};
ghost use Rattle.bep_messages.specs.Structs.{ping_parts, ping};
ghost use Rattle.bep_messages.specs.Wholes.{ping_whole};

use crate::fault::MessageFault;
use crate::items::Copied;
use crate::message::ProtoMessage;
use crate::writer::Writer;
use crate::{copy_fields, empty_fields, take_field, write_rows};
use bep_wire::Field;
use std::alloc::{AllocError, Global};

/// Says that the sender is there (Block Exchange Protocol v1, "Ping").
#[derive(Debug, Drop)]
pub struct Ping {}

macro_rules! fields {
    ($do:ident $($with:tt)*) => {
        $do! { $($with)*;
        }
    };
}

impl ProtoMessage for Ping {
    ghost table = { ping_table };

    ghost table_rises = { refl };

    ghost parts = { ping_parts };

    ghost whole = { ping };

    ghost whole_of_parts = { ping_whole };

    fn make_empty(alloc: Global) -> Ping {
        fields!(empty_fields Ping, alloc)
    }

    fn put(&mut self, alloc: Global, source: &[u8], field: Field) -> Result<(), MessageFault> {
        fields!(take_field self, alloc, source, field)
    }

    fn write(&self, out: &mut Writer) -> Result<(), AllocError> {
        fields!(write_rows self, out);
        Ok(())
    }
}

impl Copied for Ping {
    ghost needs_no_memory = { λ _. ⊤ };

    fn copy(&self) -> Result<Ping, AllocError> {
        fields!(copy_fields Ping, self)
    }
}
