//! The IndexUpdate message, decoded and encoded: the FileInfo of each file of a folder that changed.
ghost use Rattle.std.specs.Prelude.{◌≡◌, [], refl};
ghost use Rattle.bep_messages.specs.Protocol.{index_update_table};
ghost use Rattle.bep_messages.specs.Structs.{index_update_parts, index_update};
ghost use Rattle.bep_messages.specs.Wholes.{index_update_whole};

use crate::fault::MessageFault;
use crate::file_info::FileInfo;
use crate::items::{Copied, Items};
use crate::message::ProtoMessage;
use crate::text::Text;
use crate::writer::Writer;
use crate::{copy_fields, empty_fields, take_field, write_rows};
use bep_wire::Field;
use std::alloc::{AllocError, Global};

/// Files of a folder that changed (Block Exchange Protocol v1, "Index and Index Update").
#[derive(Debug, Drop)]
pub struct IndexUpdate {
    /// The folder's id.
    pub folder: Text,
    pub files: Items<FileInfo>,
}

macro_rules! fields {
    ($do:ident $($with:tt)*) => {
        $do! { $($with)*;
            1 folder words;
            2 files messages;
        }
    };
}

impl ProtoMessage for IndexUpdate {
    ghost table = { index_update_table };

    ghost table_rises = { refl };

    ghost parts = { index_update_parts };

    ghost whole = { index_update };

    ghost whole_of_parts = { index_update_whole };

    fn make_empty(alloc: Global) -> IndexUpdate {
        fields!(empty_fields IndexUpdate, alloc)
    }

    fn put(&mut self, alloc: Global, source: &[u8], field: Field) -> Result<(), MessageFault> {
        fields!(take_field self, alloc, source, field)
    }

    fn write(&self, out: &mut Writer) -> Result<(), AllocError> {
        fields!(write_rows self, out);
        Ok(())
    }
}

impl Copied for IndexUpdate {
    ghost needs_no_memory = { λ m. (m.folder ≡ []) × (m.files ≡ []) };

    fn copy(&self) -> Result<IndexUpdate, AllocError> {
        fields!(copy_fields IndexUpdate, self)
    }
}
