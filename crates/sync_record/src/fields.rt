//! The fields of a record that its copies share: name, version, block list, symlink target, numbers and flags.
ghost use Rattle.sync_names.specs.Safe.{IsSafe};
ghost use Rattle.sync_version.specs.Versions.{IsCanonical};

use bep_messages::Octets;
use std::marker::Model;
use sync_blocks::Block;
use sync_names::SafeName;
use sync_version::Version;

/// The fields of a record that its copies share, of any values: all except the sequence. Contracts see a record of
/// sequence 0.
#[derive(Debug, Drop)]
pub(crate) struct Fields {
    pub name: SafeName,
    pub version: Version,
    pub blocks: Vec<Block>,
    pub symlink_target: Octets,
    pub plain: Plain,
}

/// Those of them that are numbers and flags.
#[derive(Clone, Copy, Debug, PartialEq, Eq)]
pub(crate) struct Plain {
    pub type_number: i32,
    pub size: i64,
    pub permissions: u32,
    pub modified_s: i64,
    pub modified_ns: i32,
    pub modified_by: u64,
    pub deleted: bool,
    pub invalid: bool,
    pub no_permissions: bool,
    pub block_size: i32,
}

impl Fields {
    /// What holds of every name and version. Does nothing.
    pub fn facts(&self)
        ensures name { IsSafe self.now.name }
        ensures version { IsCanonical self.now.version }
    {
        let _ = self.name.as_str();
        let _ = self.version.counters();
    }
}

impl Model for Fields {
    ghost use Rattle.sync_record.specs.Records.{FileRecord};

    ghost Value = { FileRecord };

    ghost view = { λ f. record {
      name = f.name;
      type_number = f.plain.type_number;
      size = f.plain.size;
      permissions = f.plain.permissions;
      modified_s = f.plain.modified_s;
      modified_ns = f.plain.modified_ns;
      modified_by = f.plain.modified_by;
      deleted = f.plain.deleted;
      invalid = f.plain.invalid;
      no_permissions = f.plain.no_permissions;
      version = f.version;
      sequence = 0;
      block_size = f.plain.block_size;
      blocks = f.blocks.items;
      symlink_target = f.symlink_target;
    } };
}
