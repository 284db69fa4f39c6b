//! The Header before each message but the Hello, decoded and encoded: the message's type number and compression.
ghost use Rattle.std.specs.Prelude.{⊤, refl};
ghost use Rattle.bep_messages.specs.Protocol.{header_table};
ghost use Rattle.bep_messages.specs.Structs.{header_parts, header};
ghost use Rattle.bep_messages.specs.Wholes.{header_whole};

use crate::fault::MessageFault;
use crate::items::Copied;
use crate::message::ProtoMessage;
use crate::writer::Writer;
use crate::{copy_fields, empty_fields, take_field, write_rows};
use bep_wire::Field;
use std::alloc::{AllocError, Global};

/// What comes before each message except the Hello (Block Exchange Protocol v1, "Message Header").
#[derive(Debug, Drop)]
pub struct Header {
    /// Which message follows: 0 ClusterConfig, 1 Index, 2 IndexUpdate, 3 Request, 4 Response,
    /// 5 DownloadProgress, 6 Ping, 7 Close (`type` in the protocol).
    pub kind: i32,
    /// 0 none, 1 LZ4.
    pub compression: i32,
}

macro_rules! fields {
    ($do:ident $($with:tt)*) => {
        $do! { $($with)*;
            1 kind enumeration;
            2 compression enumeration;
        }
    };
}

impl ProtoMessage for Header {
    ghost table = { header_table };

    ghost table_rises = { refl };

    ghost parts = { header_parts };

    ghost whole = { header };

    ghost whole_of_parts = { header_whole };

    fn make_empty(alloc: Global) -> Header {
        fields!(empty_fields Header, alloc)
    }

    fn put(&mut self, alloc: Global, source: &[u8], field: Field) -> Result<(), MessageFault> {
        fields!(take_field self, alloc, source, field)
    }

    fn write(&self, out: &mut Writer) -> Result<(), AllocError> {
        fields!(write_rows self, out);
        Ok(())
    }
}

impl Copied for Header {
    ghost needs_no_memory = { λ _. ⊤ };

    fn copy(&self) -> Result<Header, AllocError> {
        fields!(copy_fields Header, self)
    }
}
