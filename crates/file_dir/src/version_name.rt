//! The names of versions.
ghost use Rattle.std.specs.Prelude.{◌≡◌, ◌↔◌, ◌<◌, ◌≤◌, ℕ, Some, IfOk, IfSome, IsTrue, length, string_bytes};
ghost use Rattle.file_dir.specs.Versions.{IsCut, IsVersionName, IsVersionOf};
ghost use Rattle.sync_names.specs.Extension.{stem_of, extension_of};
ghost use Rattle.sync_version.specs.declared.moment.TheConstants.Moment.{MAX_SECONDS};

use crate::stamp::{MARK, moment_of_mark, version_mark};
use std::alloc::{AllocError, Global};
use sync_version::Moment;

/// The most bytes of a component.
const LONGEST: usize = 255;

/// The last component of the version of a file with this last component, which was replaced or removed at that moment: `~` and the moment as
/// YYYYMMDD-HHMMSS stand before its extension, which begins at its last dot. Has at most 255 bytes: what is before the mark is cut for that. O(n).
pub(crate) fn version_name(alloc: Global, last: &str, moment: Moment) -> Result<String, AllocError>
    ensures name { IfOk result (λ name. IsVersionName last.now moment (string_bytes name)) }
    ensures fits { IfOk result (λ name. length (string_bytes name) ≤ 255) }
{
    let (stem, extension) = split_extension(last);
    let back = cut(extension, LONGEST - MARK);
    let front = cut(stem, LONGEST - MARK - back.len());
    let mut name = String::from_str(alloc, front)?;
    for byte in version_mark(moment) {
        name.push(char::from(byte))?;
    }
    name.push_str(back)?;
    Ok(name)
}

/// The moment of the version with this last component, if it has that form. Does not allocate. O(n).
pub(crate) fn moment_of_version(component: &str) -> Option<Moment>
    ensures found { IfSome result (λ moment. IsVersionOf moment component.now) }
    ensures all { (moment : ℕ) → moment ≤ Moment.MAX_SECONDS → IsVersionOf moment component.now → result ≡ Some moment }
{
    let (stem, _) = split_extension(component);
    let stem = stem.as_bytes();
    if stem.len() < MARK {
        return None;
    }
    let (_, mark) = stem.split_at(stem.len() - MARK);
    moment_of_mark(mark)
}

/// Whether a component is that of a version of a moment before so many seconds since 1970. Does not allocate. O(n).
pub(crate) fn is_version_before(component: &str, seconds: u64) -> bool
    ensures { IsTrue result ↔ ((moment : ℕ) × (moment ≤ MAX_SECONDS) × (moment < seconds) × IsVersionOf moment component.now) }
{
    match moment_of_version(component) {
        Some(moment) => moment.seconds() < seconds,
        None => false,
    }
}

// As much of a text as ends with a character within so many bytes.
fn cut(text: &str, limit: usize) -> &str
    ensures { IsCut limit text.now result.now }
{
    text.split_at(text.floor_char_boundary(limit)).0
}

// A component cut before its last dot: the stem, and the extension with that dot.
fn split_extension(component: &str) -> (&str, &str)
    ensures stem { result.0.now ≡ stem_of component.now }
    ensures extension { result.1.now ≡ extension_of component.now }
{
    match component.rfind('.') {
        Some(dot) => component.split_at(dot),
        None => (component, ""),
    }
}
