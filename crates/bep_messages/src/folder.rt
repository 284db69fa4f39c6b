//! The Folder message of a ClusterConfig, decoded and encoded: a folder's id, label, flags and devices.
ghost use Rattle.std.specs.Prelude.{◌≡◌, [], refl};
ghost use Rattle.bep_messages.specs.Protocol.{folder_table};
ghost use Rattle.bep_messages.specs.Structs.{folder_parts, folder};
ghost use Rattle.bep_messages.specs.Wholes.{folder_whole};

use crate::device::Device;
use crate::fault::MessageFault;
use crate::items::{Copied, Items};
use crate::message::ProtoMessage;
use crate::text::Text;
use crate::writer::Writer;
use crate::{copy_fields, empty_fields, take_field, write_rows};
use bep_wire::Field;
use std::alloc::{AllocError, Global};

/// A folder that the sender shares (Block Exchange Protocol v1, "Fields of the Folder message").
#[derive(Debug, Drop)]
pub struct Folder {
    pub id: Text,
    /// A name for people.
    pub label: Text,
    pub read_only: bool,
    pub ignore_permissions: bool,
    pub ignore_delete: bool,
    pub disable_temp_indexes: bool,
    pub paused: bool,
    pub devices: Items<Device>,
}

macro_rules! fields {
    ($do:ident $($with:tt)*) => {
        $do! { $($with)*;
            1 id words;
            2 label words;
            3 read_only boolean;
            4 ignore_permissions boolean;
            5 ignore_delete boolean;
            6 disable_temp_indexes boolean;
            7 paused boolean;
            16 devices messages;
        }
    };
}

impl ProtoMessage for Folder {
    ghost table = { folder_table };

    ghost table_rises = { refl };

    ghost parts = { folder_parts };

    ghost whole = { folder };

    ghost whole_of_parts = { folder_whole };

    fn make_empty(alloc: Global) -> Folder {
        fields!(empty_fields Folder, alloc)
    }

    fn put(&mut self, alloc: Global, source: &[u8], field: Field) -> Result<(), MessageFault> {
        fields!(take_field self, alloc, source, field)
    }

    fn write(&self, out: &mut Writer) -> Result<(), AllocError> {
        fields!(write_rows self, out);
        Ok(())
    }
}

impl Copied for Folder {
    ghost needs_no_memory = { λ m. (m.id ≡ []) × (m.label ≡ []) × (m.devices ≡ []) };

    fn copy(&self) -> Result<Folder, AllocError> {
        fields!(copy_fields Folder, self)
    }
}
