//! The Close message, decoded and encoded: why the connection ends.
ghost use Rattle.std.specs.Prelude.{◌≡◌, [], refl};
ghost use Rattle.bep_messages.specs.Protocol.{close_table};
ghost use Rattle.bep_messages.specs.Structs.{close_parts, close};
ghost use Rattle.bep_messages.specs.Wholes.{close_whole};

use crate::fault::MessageFault;
use crate::items::Copied;
use crate::message::ProtoMessage;
use crate::text::Text;
use crate::writer::Writer;
use crate::{copy_fields, empty_fields, take_field, write_rows};
use bep_wire::Field;
use std::alloc::{AllocError, Global};

/// Says that the connection ends (Block Exchange Protocol v1, "Close").
#[derive(Debug, Drop)]
pub struct Close {
    /// For people.
    pub reason: Text,
}

macro_rules! fields {
    ($do:ident $($with:tt)*) => {
        $do! { $($with)*;
            1 reason words;
        }
    };
}

impl ProtoMessage for Close {
    ghost table = { close_table };

    ghost table_rises = { refl };

    ghost parts = { close_parts };

    ghost whole = { close };

    ghost whole_of_parts = { close_whole };

    fn make_empty(alloc: Global) -> Close {
        fields!(empty_fields Close, alloc)
    }

    fn put(&mut self, alloc: Global, source: &[u8], field: Field) -> Result<(), MessageFault> {
        fields!(take_field self, alloc, source, field)
    }

    fn write(&self, out: &mut Writer) -> Result<(), AllocError> {
        fields!(write_rows self, out);
        Ok(())
    }
}

impl Copied for Close {
    ghost needs_no_memory = { λ m. m.reason ≡ [] };

    fn copy(&self) -> Result<Close, AllocError> {
        fields!(copy_fields Close, self)
    }
}
