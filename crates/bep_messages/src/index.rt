//! The Index message, decoded and encoded: the FileInfo of each file that the sender has of a folder.
ghost use Rattle.std.specs.Prelude.{◌≡◌, [], refl};
ghost use Rattle.bep_messages.specs.Protocol.{index_table};
ghost use Rattle.bep_messages.specs.Structs.{index_parts, index};
ghost use Rattle.bep_messages.specs.Wholes.{index_whole};

use crate::fault::MessageFault;
use crate::file_info::FileInfo;
use crate::items::{Copied, Items};
use crate::message::ProtoMessage;
use crate::text::Text;
use crate::writer::Writer;
use crate::{copy_fields, empty_fields, take_field, write_rows};
use bep_wire::Field;
use std::alloc::{AllocError, Global};

/// All files of a folder that the sender has (Block Exchange Protocol v1, "Index and Index Update").
#[derive(Debug, Drop)]
pub struct Index {
    /// The folder's id.
    pub folder: Text,
    pub files: Items<FileInfo>,
}

macro_rules! fields {
    ($do:ident $($with:tt)*) => {
        $do! { $($with)*;
            1 folder words;
            2 files messages;
        }
    };
}

impl ProtoMessage for Index {
    ghost table = { index_table };

    ghost table_rises = { refl };

    ghost parts = { index_parts };

    ghost whole = { index };

    ghost whole_of_parts = { index_whole };

    fn make_empty(alloc: Global) -> Index {
        fields!(empty_fields Index, alloc)
    }

    fn put(&mut self, alloc: Global, source: &[u8], field: Field) -> Result<(), MessageFault> {
        fields!(take_field self, alloc, source, field)
    }

    fn write(&self, out: &mut Writer) -> Result<(), AllocError> {
        fields!(write_rows self, out);
        Ok(())
    }
}

impl Copied for Index {
    ghost needs_no_memory = { λ m. (m.folder ≡ []) × (m.files ≡ []) };

    fn copy(&self) -> Result<Index, AllocError> {
        fields!(copy_fields Index, self)
    }
}
