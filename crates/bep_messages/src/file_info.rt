//! The FileInfo message, decoded and encoded: a file's name, type, size, time, version vector, sequence and block list.
ghost use Rattle.std.specs.Prelude.{◌≡◌, [], refl};
ghost use Rattle.bep_messages.specs.Protocol.{file_info_table};
ghost use Rattle.bep_messages.specs.Structs.{file_info_parts, file_info};
ghost use Rattle.bep_messages.specs.Wholes.{file_info_whole};

use crate::block_info::BlockInfo;
use crate::fault::MessageFault;
use crate::items::{Copied, Items};
use crate::message::ProtoMessage;
use crate::octets::Octets;
use crate::text::Text;
use crate::vector::Vector;
use crate::writer::Writer;
use crate::{copy_fields, empty_fields, take_field, write_rows};
use bep_wire::Field;
use std::alloc::{AllocError, Global};

/// A file, directory or symlink as a device announces it (Block Exchange Protocol v1, "Fields of the FileInfo message").
#[derive(Debug, Drop)]
pub struct FileInfo {
    /// Relative to the folder, with `/`.
    pub name: Text,
    /// 0 file, 1 directory, 2 to 4 symlinks (`type` in the protocol).
    pub kind: i32,
    /// In bytes.
    pub size: i64,
    /// The low bits of a Unix mode.
    pub permissions: u32,
    /// Unix seconds of the last change.
    pub modified_s: i64,
    pub deleted: bool,
    /// The sender cannot provide it.
    pub invalid: bool,
    /// `permissions` has no meaning.
    pub no_permissions: bool,
    pub version: Vector,
    /// The sender's number of the change.
    pub sequence: i64,
    /// Nanoseconds after `modified_s`.
    pub modified_ns: i32,
    /// The short identity of the device that made the last change.
    pub modified_by: u64,
    /// The size of all blocks except the last, in bytes.
    pub block_size: i32,
    pub blocks: Items<BlockInfo>,
    pub symlink_target: Octets,
}

macro_rules! fields {
    ($do:ident $($with:tt)*) => {
        $do! { $($with)*;
            1 name words;
            2 kind enumeration;
            3 size int64;
            4 permissions uint32;
            5 modified_s int64;
            6 deleted boolean;
            7 invalid boolean;
            8 no_permissions boolean;
            9 version message;
            10 sequence int64;
            11 modified_ns int32;
            12 modified_by uint64;
            13 block_size int32;
            16 blocks messages;
            17 symlink_target octets;
        }
    };
}

impl ProtoMessage for FileInfo {
    ghost table = { file_info_table };

    ghost table_rises = { refl };

    ghost parts = { file_info_parts };

    ghost whole = { file_info };

    ghost whole_of_parts = { file_info_whole };

    fn make_empty(alloc: Global) -> FileInfo {
        fields!(empty_fields FileInfo, alloc)
    }

    fn put(&mut self, alloc: Global, source: &[u8], field: Field) -> Result<(), MessageFault> {
        fields!(take_field self, alloc, source, field)
    }

    fn write(&self, out: &mut Writer) -> Result<(), AllocError> {
        fields!(write_rows self, out);
        Ok(())
    }
}

impl Copied for FileInfo {
    ghost needs_no_memory = { λ m. (m.name ≡ []) × (m.version.counters ≡ []) × (m.blocks ≡ []) × (m.symlink_target ≡ []) };

    fn copy(&self) -> Result<FileInfo, AllocError> {
        fields!(copy_fields FileInfo, self)
    }
}
