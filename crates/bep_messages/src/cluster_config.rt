//! The ClusterConfig message, decoded and encoded: which folders the sender shares with which devices.
ghost use Rattle.std.specs.Prelude.{◌≡◌, [], refl};
ghost use Rattle.bep_messages.specs.Protocol.{cluster_config_table};
ghost use Rattle.bep_messages.specs.Structs.{cluster_config_parts, cluster_config};
ghost use Rattle.bep_messages.specs.Wholes.{cluster_config_whole};

use crate::fault::MessageFault;
use crate::folder::Folder;
use crate::items::{Copied, Items};
use crate::message::ProtoMessage;
use crate::writer::Writer;
use crate::{copy_fields, empty_fields, take_field, write_rows};
use bep_wire::Field;
use std::alloc::{AllocError, Global};

/// Which folders the sender shares with whom (Block Exchange Protocol v1, "Cluster Config").
#[derive(Debug, Drop)]
pub struct ClusterConfig {
    pub folders: Items<Folder>,
}

macro_rules! fields {
    ($do:ident $($with:tt)*) => {
        $do! { $($with)*;
            1 folders messages;
        }
    };
}

impl ProtoMessage for ClusterConfig {
    ghost table = { cluster_config_table };

    ghost table_rises = { refl };

    ghost parts = { cluster_config_parts };

    ghost whole = { cluster_config };

    ghost whole_of_parts = { cluster_config_whole };

    fn make_empty(alloc: Global) -> ClusterConfig {
        fields!(empty_fields ClusterConfig, alloc)
    }

    fn put(&mut self, alloc: Global, source: &[u8], field: Field) -> Result<(), MessageFault> {
        fields!(take_field self, alloc, source, field)
    }

    fn write(&self, out: &mut Writer) -> Result<(), AllocError> {
        fields!(write_rows self, out);
        Ok(())
    }
}

impl Copied for ClusterConfig {
    ghost needs_no_memory = { λ m. m.folders ≡ [] };

    fn copy(&self) -> Result<ClusterConfig, AllocError> {
        fields!(copy_fields ClusterConfig, self)
    }
}
