//! The Device message of a Folder, decoded and encoded: a device's identity, name, addresses, sequence and index id.
ghost use Rattle.std.specs.Prelude.{◌≡◌, [], refl};
ghost use Rattle.bep_messages.specs.Protocol.{device_table};
ghost use Rattle.bep_messages.specs.Structs.{device_parts, device};
ghost use Rattle.bep_messages.specs.Wholes.{device_whole};

use crate::fault::MessageFault;
use crate::items::{Copied, Items};
use crate::message::ProtoMessage;
use crate::octets::Octets;
use crate::text::Text;
use crate::writer::Writer;
use crate::{copy_fields, empty_fields, take_field, write_rows};
use bep_wire::Field;
use std::alloc::{AllocError, Global};

/// A device that a folder is shared with (Block Exchange Protocol v1, "Fields of the Device message").
#[derive(Debug, Drop)]
pub struct Device {
    /// The device identity, 32 bytes.
    pub id: Octets,
    pub name: Text,
    pub addresses: Items<Text>,
    /// 0 metadata, 1 never, 2 always.
    pub compression: i32,
    pub cert_name: Text,
    /// The greatest sequence that the sender has of the device.
    pub max_sequence: i64,
    pub introducer: bool,
    /// Which index the sequences are of; 0 for none.
    pub index_id: u64,
    pub skip_introduction_removals: bool,
}

macro_rules! fields {
    ($do:ident $($with:tt)*) => {
        $do! { $($with)*;
            1 id octets;
            2 name words;
            3 addresses texts;
            4 compression enumeration;
            5 cert_name words;
            6 max_sequence int64;
            7 introducer boolean;
            8 index_id uint64;
            9 skip_introduction_removals boolean;
        }
    };
}

impl ProtoMessage for Device {
    ghost table = { device_table };

    ghost table_rises = { refl };

    ghost parts = { device_parts };

    ghost whole = { device };

    ghost whole_of_parts = { device_whole };

    fn make_empty(alloc: Global) -> Device {
        fields!(empty_fields Device, alloc)
    }

    fn put(&mut self, alloc: Global, source: &[u8], field: Field) -> Result<(), MessageFault> {
        fields!(take_field self, alloc, source, field)
    }

    fn write(&self, out: &mut Writer) -> Result<(), AllocError> {
        fields!(write_rows self, out);
        Ok(())
    }
}

impl Copied for Device {
    ghost needs_no_memory = { λ m. (m.id ≡ []) × (m.name ≡ []) × (m.addresses ≡ []) × (m.cert_name ≡ []) };

    fn copy(&self) -> Result<Device, AllocError> {
        fields!(copy_fields Device, self)
    }
}
