//! Records of this device's own changes.
ghost use Rattle.std.specs.Prelude.{◌≡◌, ◌<◌, ◌^◌, All, IfOk, IsTrue, length, pos};
ghost use Rattle.sync_record.specs.Own.{deletion_of, directory_record, file_record};
ghost use Rattle.sync_record.specs.Validity.{describes_file};

use crate::Record;
use crate::fields::{Fields, Plain};
use bep_messages::{Copied, Items, Octets};
use std::alloc::{AllocError, Global};
use sync_blocks::{Block, MIN_BLOCK_SIZE};
use sync_names::SafeName;
use sync_version::Version;

/// A change of one name: the version after it, when it was made and by which device.
#[derive(Debug, Drop)]
pub struct Edit {
    pub version: Version,
    /// Whole Unix seconds.
    pub modified_s: i64,
    /// The device's short id.
    pub modified_by: u64,
    /// The nanoseconds after the second.
    pub modified_ns: i32,
}

impl Record {
    /// A directory after the edit, of sequence 0, with no permissions announced. Returns `Err` if it could not be
    /// allocated. O(1), one allocation.
    pub fn directory(alloc: Global, name: SafeName, edit: Edit) -> Result<Record, AllocError>
        ensures { IfOk result (λ r. r ≡ directory_record name edit) }
    {
        let plain = Plain {
            type_number: 1,
            size: 0,
            permissions: 0,
            modified_s: edit.modified_s,
            modified_ns: edit.modified_ns,
            modified_by: edit.modified_by,
            deleted: false,
            invalid: false,
            no_permissions: true,
            block_size: MIN_BLOCK_SIZE as i32,
        };
        let fields = Fields {
            name,
            version: edit.version,
            blocks: Vec::new(alloc),
            symlink_target: Octets::new(alloc),
            plain,
        };
        Record::from_fields(alloc, 0, fields)
    }

    /// A file of this size, block size and these blocks after the edit, of sequence 0, with no permissions announced. It
    /// takes the blocks over. Returns `Err` if it could not be allocated. O(1), one allocation.
    pub fn file(
        alloc: Global,
        name: SafeName,
        size: u64,
        block_size: u32,
        blocks: Items<Block>,
        edit: Edit,
    ) -> Result<Record, AllocError>
        requires size { size < 2 ^ 63 }
        requires described { IsTrue (describes_file (pos size) (pos block_size) blocks) }
        requires digests { All (λ b. length b.hash ≡ 32) blocks }
        ensures { IfOk result (λ r. r ≡ file_record name size block_size blocks edit) }
    {
        let plain = Plain {
            type_number: 0,
            size: size as i64,
            permissions: 0,
            modified_s: edit.modified_s,
            modified_ns: edit.modified_ns,
            modified_by: edit.modified_by,
            deleted: false,
            invalid: false,
            no_permissions: true,
            block_size: block_size as i32,
        };
        let fields = Fields {
            name,
            version: edit.version,
            blocks: blocks.into_vec(),
            symlink_target: Octets::new(alloc),
            plain,
        };
        Record::from_fields(alloc, 0, fields)
    }

    /// What the record is of, deleted by the edit, with no permissions announced; the sequence stays. Copies no block.
    /// Returns `Err` if it could not be allocated. O(n) for n bytes of the name and the symlink target.
    pub fn deletion(&self, edit: Edit) -> Result<Record, AllocError>
        ensures { IfOk result (λ r. r ≡ deletion_of self.now edit) }
    {
        let alloc = *self.fields.blocks.allocator();
        let plain = Plain {
            size: 0,
            permissions: 0,
            modified_s: edit.modified_s,
            modified_ns: edit.modified_ns,
            modified_by: edit.modified_by,
            deleted: true,
            invalid: false,
            no_permissions: true,
            ..self.fields.plain
        };
        let fields = Fields {
            name: self.fields.name.copy()?,
            version: edit.version,
            blocks: Vec::new(alloc),
            symlink_target: self.fields.symlink_target.copy()?,
            plain,
        };
        Record::from_fields(alloc, self.sequence, fields)
    }

    /// The record with this version, in memory of its own. Returns `Err` if it could not be allocated. O(n) for n bytes
    /// of the name, the symlink target and the blocks.
    pub fn with_version(&self, version: Version) -> Result<Record, AllocError>
        ensures { IfOk result (λ r. r ≡ record self.now { version = version }) }
    {
        let alloc = *self.fields.blocks.allocator();
        let fields = Fields {
            name: self.fields.name.copy()?,
            version,
            blocks: Vec::from_slice(alloc, &self.fields.blocks)?,
            symlink_target: self.fields.symlink_target.copy()?,
            plain: self.fields.plain,
        };
        Record::from_fields(alloc, self.sequence, fields)
    }
}
