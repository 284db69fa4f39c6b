//! The DownloadProgress message, whose fields are skipped when it is decoded.
ghost use Rattle.std.specs.Prelude.{⊤, refl};
ghost use Rattle.bep_messages.specs.Protocol.{download_progress_table};
ghost use Rattle.bep_messages.specs.Structs.{download_progress_parts, download_progress};
ghost use Rattle.bep_messages.specs.Wholes.{download_progress_whole};

use crate::fault::MessageFault;
use crate::items::Copied;
use crate::message::ProtoMessage;
use crate::writer::Writer;
use crate::{copy_fields, empty_fields, take_field, write_rows};
use bep_wire::Field;
use std::alloc::{AllocError, Global};

/// What the sender has of files that it is fetching; its fields are not kept (Block Exchange Protocol v1, "DownloadProgress").
#[derive(Debug, Drop)]
pub struct DownloadProgress {}

macro_rules! fields {
    ($do:ident $($with:tt)*) => {
        $do! { $($with)*;
        }
    };
}

impl ProtoMessage for DownloadProgress {
    ghost table = { download_progress_table };

    ghost table_rises = { refl };

    ghost parts = { download_progress_parts };

    ghost whole = { download_progress };

    ghost whole_of_parts = { download_progress_whole };

    fn make_empty(alloc: Global) -> DownloadProgress {
        fields!(empty_fields DownloadProgress, alloc)
    }

    fn put(&mut self, alloc: Global, source: &[u8], field: Field) -> Result<(), MessageFault> {
        fields!(take_field self, alloc, source, field)
    }

    fn write(&self, out: &mut Writer) -> Result<(), AllocError> {
        fields!(write_rows self, out);
        Ok(())
    }
}

impl Copied for DownloadProgress {
    ghost needs_no_memory = { λ _. ⊤ };

    fn copy(&self) -> Result<DownloadProgress, AllocError> {
        fields!(copy_fields DownloadProgress, self)
    }
}
