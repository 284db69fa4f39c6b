//! Whether two records have the same content: both deleted, or of the same type, size and block list.
ghost use Rattle.std.specs.Prelude.{◌≡◌};
ghost use Rattle.sync_record.specs.Contents.{same_content, same_file, same_other};

use crate::{Kind, Record};

/// Whether two records are of the same content: both are deleted, or both are live directories, live files of equal
/// size and (except empty ones) equal block size and blocks, or others of equal type and symlink target. Does not
/// allocate. O(n) for n blocks.
pub fn same_content(a: &Record, b: &Record) -> bool
    ensures { result ≡ same_content a.now b.now }
{
    if a.is_deleted() || b.is_deleted() {
        return a.is_deleted() && b.is_deleted();
    }
    match (a.kind(), b.kind()) {
        (Kind::Directory, Kind::Directory) => true,
        (Kind::File, Kind::File) => same_file(a, b),
        (Kind::Other, Kind::Other) => same_other(a, b),
        _ => false,
    }
}

fn same_file(a: &Record, b: &Record) -> bool
    ensures { result ≡ same_file a.now b.now }
{
    a.size() == b.size()
        && (a.size() == 0 || (a.block_size() == b.block_size() && a.blocks() == b.blocks()))
}

fn same_other(a: &Record, b: &Record) -> bool
    ensures { result ≡ same_other a.now b.now }
{
    a.fields.plain.type_number == b.fields.plain.type_number
        && a.symlink_target() == b.symlink_target()
}
