//! A peer's index id of a folder in a state file, decoded and encoded.
ghost use Rattle.std.specs.Prelude.{refl};
ghost use Rattle.node_state.specs.Tables.{peer_table};
ghost use Rattle.node_state.specs.Parts.{peer_parts, peer_of, peer_whole};

use bep_messages::{
    MessageFault, ProtoMessage, ShortOctets, Writer, empty_fields, take_field, write_rows,
};
use bep_wire::Field;
use std::alloc::{AllocError, Global};

/// The index id of a peer, as it stands in a state file.
#[derive(Debug, Drop)]
pub(crate) struct Peer {
    pub device: ShortOctets,
    pub index_id: u64,
}

macro_rules! fields {
    ($do:ident $($with:tt)*) => {
        $do! { $($with)*;
            1 device digest;
            2 index_id uint64;
        }
    };
}

impl ProtoMessage for Peer {
    ghost table = { peer_table };

    ghost table_rises = { refl };

    ghost parts = { peer_parts };

    ghost whole = { peer_of };

    ghost whole_of_parts = { peer_whole };

    fn make_empty(alloc: Global) -> Peer {
        fields!(empty_fields Peer, alloc)
    }

    fn put(&mut self, alloc: Global, source: &[u8], field: Field) -> Result<(), MessageFault> {
        fields!(take_field self, alloc, source, field)
    }

    fn write(&self, out: &mut Writer) -> Result<(), AllocError> {
        fields!(write_rows self, out);
        Ok(())
    }
}
