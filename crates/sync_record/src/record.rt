//! What a device says of a name: file, directory or deletion, with version vector, time, size, sequence and blocks.
ghost use Rattle.std.specs.Prelude.{◌≡◌, ◌<◌, ◌^◌, All, IfOk};
ghost use Rattle.sync_record.specs.Records.{kind_of};
ghost use Rattle.sync_record.specs.Validity.{IsKept, FitsBlockInfo, FitsFileInfo, is_valid};

use crate::Kind;
use crate::fields::Fields;
use crate::same::same_numbers;
use bep_messages::Copied;
use std::alloc::{AllocError, Global};
use std::marker::Model;
use std::sync::Arc;
use sync_blocks::Block;
use sync_names::SafeName;
use sync_version::Version;

/// What a device says of one name: a file, a directory, something else, or that it is deleted (Block Exchange Protocol
/// v1, "Fields of the FileInfo message").
///
/// A record that isn't well formed is invalid, and only a well formed live file has blocks. It never changes, and its
/// copies share its memory, in any thread. The sequence stands beside what is shared, so that a record may be given one
/// without allocating.
#[derive(Debug, Drop)]
pub struct Record {
    pub(crate) sequence: u64,
    pub(crate) fields: Arc<Fields, Global>,
}

impl Model for Record {
    ghost use Rattle.std.specs.Arc.{arc_value};
    ghost use Rattle.sync_record.specs.Records.{FileRecord};
    ghost use Rattle.sync_record.specs.Validity.{IsKept, FitsFileInfo};

    ghost Value = { FileRecord };

    ghost view = { λ r. record (arc_value r.fields) { sequence = r.sequence } };

    ghost invariant = { λ r. IsKept (record (arc_value r.fields) { sequence = r.sequence })
        × FitsFileInfo (record (arc_value r.fields) { sequence = r.sequence }) };
}

impl Record {
    // The record of this sequence and these fields, in memory that its copies share.
    pub(crate) fn from_fields(
        alloc: Global,
        sequence: u64,
        fields: Fields,
    ) -> Result<Record, AllocError>
        requires sequence { sequence < 2 ^ 63 }
        requires kept { IsKept fields }
        requires blocks { All FitsBlockInfo fields.blocks }
        ensures { IfOk result (λ r. r ≡ record fields { sequence = sequence }) }
    {
        fields.facts();
        Ok(Record {
            sequence,
            fields: Arc::new(alloc, fields)?,
        })
    }

    /// Its name. O(1).
    pub fn name(&self) -> &SafeName
        ensures { result.now ≡ self.now.name }
    {
        &self.fields.name
    }

    /// Its version. O(1).
    pub fn version(&self) -> &Version
        ensures { result.now ≡ self.now.version }
    {
        &self.fields.version
    }

    /// What it is of: a file, a directory or something else. A deleted record says what there was. O(1).
    pub fn kind(&self) -> Kind
        ensures { result ≡ kind_of self.now }
    {
        match self.fields.plain.type_number {
            0 => Kind::File,
            1 => Kind::Directory,
            _ => Kind::Other,
        }
    }

    /// Whether the name was deleted. O(1).
    pub fn is_deleted(&self) -> bool
        ensures { result ≡ self.now.deleted }
    {
        self.fields.plain.deleted
    }

    /// The size in bytes, as it was announced. O(1).
    pub fn size(&self) -> i64
        ensures { result ≡ self.now.size }
    {
        self.fields.plain.size
    }

    /// When it was modified: whole Unix seconds, and the nanoseconds after them, as they were announced. O(1).
    pub fn modified(&self) -> (i64, i32)
        ensures { result ≡ (self.now.modified_s, self.now.modified_ns) }
    {
        (self.fields.plain.modified_s, self.fields.plain.modified_ns)
    }

    /// The short id of the device that made the last change. O(1).
    pub fn modified_by(&self) -> u64
        ensures { result ≡ self.now.modified_by }
    {
        self.fields.plain.modified_by
    }

    /// The number under which its device announces it, which grows with each of the device's changes. Below 2^63. O(1).
    pub fn sequence(&self) -> u64
        ensures value { result ≡ self.now.sequence }
        ensures fits { result < 2 ^ 63 }
    {
        self.sequence
    }

    /// The same record with this sequence. Does not allocate. O(1).
    pub fn with_sequence(self, sequence: u64) -> Record
        requires { sequence < 2 ^ 63 }
        ensures { result ≡ record self { sequence = sequence } }
    {
        let mut record = self;
        record.sequence = sequence;
        record
    }

    /// The block size in bytes, as it was announced; 128 KiB where none was. O(1).
    pub fn block_size(&self) -> i32
        ensures { result ≡ self.now.block_size }
    {
        self.fields.plain.block_size
    }

    /// Its blocks in the order of the file. O(1).
    pub fn blocks(&self) -> &[Block]
        ensures { result.now ≡ self.now.blocks }
    {
        self.fields.blocks.as_slice()
    }

    /// Whether it may take part in a folder: it is well formed, and isn't marked invalid. Does not allocate. O(1).
    pub fn is_valid(&self) -> bool
        ensures { result ≡ is_valid self.now }
    {
        !self.fields.plain.invalid
    }

    /// The same record once more, in the memory of this one. Does not allocate. Returns `Err` only if the record already
    /// has 2^63 - 1 copies. O(1).
    pub fn copy(&self) -> Result<Record, AllocError>
        ensures { IfOk result (λ r. r ≡ self.now) }
    {
        Ok(Record {
            sequence: self.sequence,
            fields: Arc::try_clone(&self.fields)?,
        })
    }

    // Where a symlink leads, as it was announced.
    pub(crate) fn symlink_target(&self) -> &[u8]
        ensures { result.now ≡ self.now.symlink_target }
    {
        self.fields.symlink_target.as_slice()
    }

    // What holds of every record. Does nothing.
    pub(crate) fn facts(&self)
        ensures kept { IsKept self.now }
        ensures fits { FitsFileInfo self.now }
    {
        let _ = &self.fields;
    }
}

impl Copied for Record {
    // Each copy is counted, and the count may be at its greatest.
    ghost needs_no_memory = { λ _. ⊥ };

    fn copy(&self) -> Result<Record, AllocError> {
        Record::copy(self)
    }
}

impl PartialEq for Record {
    ghost use Rattle.std.specs.Cmp.{partial_equiv_from_equiv};
    ghost use Rattle.sync_record.specs.Same.{same_record, same_record_equiv};

    ghost eq = { same_record };

    ghost laws = { partial_equiv_from_equiv same_record_equiv };

    /// Whether both have the same value in every field. Does not allocate. O(n) for n bytes of names and symlink targets,
    /// counters and blocks; the numbers and flags are compared first.
    fn eq(&self, other: &Record) -> bool {
        same_numbers(self, other)
            && self.name() == other.name()
            && self.version() == other.version()
            && self.symlink_target() == other.symlink_target()
            && self.blocks() == other.blocks()
    }
}

impl Eq for Record {
    ghost use Rattle.sync_record.specs.Same.{same_record_equiv};

    ghost laws = { same_record_equiv };
}
