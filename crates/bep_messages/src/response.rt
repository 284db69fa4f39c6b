//! The Response message, decoded and encoded: the bytes that a Request asked for, or an error code.
ghost use Rattle.std.specs.Prelude.{◌≡◌, [], refl};
ghost use Rattle.bep_messages.specs.Protocol.{response_table};
ghost use Rattle.bep_messages.specs.Structs.{response_parts, response};
ghost use Rattle.bep_messages.specs.Wholes.{response_whole};

use crate::fault::MessageFault;
use crate::items::Copied;
use crate::message::ProtoMessage;
use crate::octets::Octets;
use crate::writer::Writer;
use crate::{copy_fields, empty_fields, take_field, write_rows};
use bep_wire::Field;
use std::alloc::{AllocError, Global};

/// Answers a Request (Block Exchange Protocol v1, "Response").
#[derive(Debug, Drop)]
pub struct Response {
    /// That of the Request.
    pub id: i32,
    /// The bytes asked for (`data` in the protocol).
    pub payload: Octets,
    /// 0 no error, 1 generic, 2 no such file, 3 invalid file.
    pub code: i32,
}

macro_rules! fields {
    ($do:ident $($with:tt)*) => {
        $do! { $($with)*;
            1 id int32;
            2 payload octets;
            3 code enumeration;
        }
    };
}

impl ProtoMessage for Response {
    ghost table = { response_table };

    ghost table_rises = { refl };

    ghost parts = { response_parts };

    ghost whole = { response };

    ghost whole_of_parts = { response_whole };

    fn make_empty(alloc: Global) -> Response {
        fields!(empty_fields Response, alloc)
    }

    fn put(&mut self, alloc: Global, source: &[u8], field: Field) -> Result<(), MessageFault> {
        fields!(take_field self, alloc, source, field)
    }

    fn write(&self, out: &mut Writer) -> Result<(), AllocError> {
        fields!(write_rows self, out);
        Ok(())
    }
}

impl Copied for Response {
    ghost needs_no_memory = { λ m. m.payload ≡ [] };

    fn copy(&self) -> Result<Response, AllocError> {
        fields!(copy_fields Response, self)
    }
}
