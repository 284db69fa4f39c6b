//! The Request message, decoded and encoded: asks for a block by folder, name, offset, size and hash.
ghost use Rattle.std.specs.Prelude.{◌≡◌, ◌≤◌, [], length, refl};
ghost use Rattle.bep_messages.specs.Protocol.{request_table};
ghost use Rattle.bep_messages.specs.Structs.{request_parts, request};
ghost use Rattle.bep_messages.specs.declared.octets.TheConstants.{DIGEST_LEN};
ghost use Rattle.bep_messages.specs.Wholes.{request_whole};

use crate::fault::MessageFault;
use crate::items::Copied;
use crate::message::ProtoMessage;
use crate::octets::ShortOctets;
use crate::text::Text;
use crate::writer::Writer;
use crate::{copy_fields, empty_fields, take_field, write_rows};
use bep_wire::Field;
use std::alloc::{AllocError, Global};

/// Asks for a part of a file (Block Exchange Protocol v1, "Request").
#[derive(Debug, Drop)]
pub struct Request {
    /// Which the Response repeats.
    pub id: i32,
    /// The folder's id.
    pub folder: Text,
    pub name: Text,
    /// In bytes.
    pub offset: i64,
    /// In bytes.
    pub size: i32,
    /// The digest that the part should have, or none.
    pub hash: ShortOctets,
    pub from_temporary: bool,
}

macro_rules! fields {
    ($do:ident $($with:tt)*) => {
        $do! { $($with)*;
            1 id int32;
            2 folder words;
            3 name words;
            4 offset int64;
            5 size int32;
            6 hash digest;
            7 from_temporary boolean;
        }
    };
}

impl ProtoMessage for Request {
    ghost table = { request_table };

    ghost table_rises = { refl };

    ghost parts = { request_parts };

    ghost whole = { request };

    ghost whole_of_parts = { request_whole };

    fn make_empty(alloc: Global) -> Request {
        fields!(empty_fields Request, alloc)
    }

    fn put(&mut self, alloc: Global, source: &[u8], field: Field) -> Result<(), MessageFault> {
        fields!(take_field self, alloc, source, field)
    }

    fn write(&self, out: &mut Writer) -> Result<(), AllocError> {
        fields!(write_rows self, out);
        Ok(())
    }
}

impl Copied for Request {
    ghost needs_no_memory = { λ m. (m.folder ≡ []) × (m.name ≡ []) × (length m.hash ≤ DIGEST_LEN) };

    fn copy(&self) -> Result<Request, AllocError> {
        fields!(copy_fields Request, self)
    }
}
