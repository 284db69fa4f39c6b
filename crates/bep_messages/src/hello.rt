//! The Hello message, decoded and encoded: the device's name, and the client's name and version.
ghost use Rattle.std.specs.Prelude.{◌≡◌, [], refl};
ghost use Rattle.bep_messages.specs.Protocol.{hello_table};
ghost use Rattle.bep_messages.specs.Structs.{hello_parts, hello};
ghost use Rattle.bep_messages.specs.Wholes.{hello_whole};

use crate::fault::MessageFault;
use crate::items::Copied;
use crate::message::ProtoMessage;
use crate::text::Text;
use crate::writer::Writer;
use crate::{copy_fields, empty_fields, take_field, write_rows};
use bep_wire::Field;
use std::alloc::{AllocError, Global};

/// What a device says first on a connection (Block Exchange Protocol v1, "Hello Messages").
#[derive(Debug, Drop)]
pub struct Hello {
    /// A name for people.
    pub device_name: Text,
    /// The program.
    pub client_name: Text,
    pub client_version: Text,
}

macro_rules! fields {
    ($do:ident $($with:tt)*) => {
        $do! { $($with)*;
            1 device_name words;
            2 client_name words;
            3 client_version words;
        }
    };
}

impl ProtoMessage for Hello {
    ghost table = { hello_table };

    ghost table_rises = { refl };

    ghost parts = { hello_parts };

    ghost whole = { hello };

    ghost whole_of_parts = { hello_whole };

    fn make_empty(alloc: Global) -> Hello {
        fields!(empty_fields Hello, alloc)
    }

    fn put(&mut self, alloc: Global, source: &[u8], field: Field) -> Result<(), MessageFault> {
        fields!(take_field self, alloc, source, field)
    }

    fn write(&self, out: &mut Writer) -> Result<(), AllocError> {
        fields!(write_rows self, out);
        Ok(())
    }
}

impl Copied for Hello {
    ghost needs_no_memory = { λ m. (m.device_name ≡ []) × (m.client_name ≡ []) × (m.client_version ≡ []) };

    fn copy(&self) -> Result<Hello, AllocError> {
        fields!(copy_fields Hello, self)
    }
}
