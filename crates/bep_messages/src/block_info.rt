//! The BlockInfo message, decoded and encoded: offset, size and SHA-256 hash of a block in a FileInfo's block list.
ghost use Rattle.std.specs.Prelude.{◌≤◌, length, refl};
ghost use Rattle.bep_messages.specs.Protocol.{block_info_table};
ghost use Rattle.bep_messages.specs.Structs.{block_info_parts, block_info};
ghost use Rattle.bep_messages.specs.declared.octets.TheConstants.{DIGEST_LEN};
ghost use Rattle.bep_messages.specs.Wholes.{block_info_whole};

use crate::fault::MessageFault;
use crate::items::Copied;
use crate::message::ProtoMessage;
use crate::octets::ShortOctets;
use crate::writer::Writer;
use crate::{copy_fields, empty_fields, take_field, write_rows};
use bep_wire::Field;
use std::alloc::{AllocError, Global};

/// A block of a file (Block Exchange Protocol v1, "Fields of the BlockInfo message").
#[derive(Debug, Drop)]
pub struct BlockInfo {
    /// Where the block begins, in bytes.
    pub offset: i64,
    /// In bytes.
    pub size: i32,
    /// The SHA-256 digest of the block: 32 bytes, where the sender keeps to the protocol.
    pub hash: ShortOctets,
}

macro_rules! fields {
    ($do:ident $($with:tt)*) => {
        $do! { $($with)*;
            1 offset int64;
            2 size int32;
            3 hash digest;
        }
    };
}

impl ProtoMessage for BlockInfo {
    ghost table = { block_info_table };

    ghost table_rises = { refl };

    ghost parts = { block_info_parts };

    ghost whole = { block_info };

    ghost whole_of_parts = { block_info_whole };

    fn make_empty(alloc: Global) -> BlockInfo {
        fields!(empty_fields BlockInfo, alloc)
    }

    fn put(&mut self, alloc: Global, source: &[u8], field: Field) -> Result<(), MessageFault> {
        fields!(take_field self, alloc, source, field)
    }

    fn write(&self, out: &mut Writer) -> Result<(), AllocError> {
        fields!(write_rows self, out);
        Ok(())
    }
}

impl Copied for BlockInfo {
    ghost needs_no_memory = { λ m. length m.hash ≤ DIGEST_LEN };

    fn copy(&self) -> Result<BlockInfo, AllocError> {
        fields!(copy_fields BlockInfo, self)
    }
}
