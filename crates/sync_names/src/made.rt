//! The names made from a file's name: of its temporary file, of the file while it is replaced, and of a conflict copy.
ghost use Rattle.std.specs.Prelude.{◌≡◌, ◌⊎◌, ◌↔◌, List, ℕ, IfOk, OnOk, IfErr, Err, MatchOption, codes, string_bytes};
ghost use Rattle.sync_names.specs.Components.{last_component};
ghost use Rattle.sync_names.specs.Made.{temp_text, replaced_text, conflict_text, IsTempText, IsReplacedText, IsReplaced};
ghost use Rattle.sync_names.specs.Parsing.{ParsesTo};
ghost use Rattle.sync_names.specs.Safe.{IsSafe};

use crate::utc::{UtcTime, push_date_and_time};
use crate::{NameFault, SafeName, base32, text};
use std::alloc::{AllocError, Global};
use std::marker::Model;
use sync_version::Moment;

/// The name of a safe name's temporary file, in the same folder.
#[derive(Drop, Debug)]
pub struct TempName {
    text: String,
}

impl Model for TempName {
    ghost use Rattle.std.specs.Prelude.{ℕ, List, string_bytes};
    ghost use Rattle.sync_names.specs.Made.{IsTempText};

    ghost Value = { List ℕ };

    ghost view = { λ name. string_bytes name.text };

    ghost invariant = { λ name. IsTempText (string_bytes name.text) };
}

impl TempName {
    /// The text of the name. O(1).
    pub fn as_str(&self) -> &str
        ensures value { result.now ≡ self.now }
        ensures temporary { IsTempText result.now }
    {
        self.text.as_str()
    }
}

/// The name of a name's temporary file: in the same folder, `.syncthing.`, the last component and
/// `.tmp`. It is internal, so it is no other file's name. O(n).
pub fn temp_name(name: &SafeName) -> Result<TempName, AllocError>
    ensures { IfOk result (λ temp. temp ≡ temp_text name.now) }
{
    let text = temporary(name.allocator(), name.as_str())?;
    Ok(TempName { text })
}

/// The name at which a file is kept while it is replaced or removed.
#[derive(Drop, Debug)]
pub struct ReplacedName {
    text: String,
}

impl Model for ReplacedName {
    ghost use Rattle.std.specs.Prelude.{ℕ, List, string_bytes};
    ghost use Rattle.sync_names.specs.Made.{IsReplacedText};

    ghost Value = { List ℕ };

    ghost view = { λ name. string_bytes name.text };

    ghost invariant = { λ name. IsReplacedText (string_bytes name.text) };
}

impl ReplacedName {
    /// The text of the name. O(1).
    pub fn as_str(&self) -> &str
        ensures value { result.now ≡ self.now }
        ensures replaced { IsReplacedText result.now }
    {
        self.text.as_str()
    }
}

/// The name at which a name's file is kept while it is replaced or removed: the temporary name of its temporary name. It is in the
/// same folder and internal, and is the temporary name of no safe name, since a temporary name is none. O(n).
pub fn replaced_name(name: &SafeName) -> Result<ReplacedName, AllocError>
    ensures { IfOk result (λ kept. kept ≡ replaced_text name.now) }
{
    let temp = temp_name(name)?;
    let text = temporary(name.allocator(), temp.as_str())?;
    Ok(ReplacedName { text })
}

/// The last component of the name whose file was kept at a name with this last component, if it has that form. Does not allocate. O(n).
pub fn replaced_component(component: &str) -> Option<&str>
    ensures { MatchOption result ((last : List ℕ) → ¬ (IsReplaced component.now last)) (λ last. IsReplaced component.now last.now) }
{
    let Some(rest) = component.strip_prefix(".syncthing..syncthing.") else {
        return None;
    };
    rest.strip_suffix(".tmp.tmp")
}

// In the same folder, `.syncthing.`, the last component and `.tmp`.
fn temporary(alloc: Global, name: &str) -> Result<String, AllocError>
    ensures { IfOk result (λ text. string_bytes text ≡ temp_text name.now) }
{
    let (folder, last) = text::split_last_component(name);
    format!(in alloc; "{folder}.syncthing.{last}.tmp")
}

/// The name of a name's conflict copy: in the same folder, the last component with
/// `.sync-conflict-`, the date as YYYYMMDD, `-`, the time as HHMMSS, `-` and `modified_by` before its
/// extension, which begins at its last dot. The date and time are the moment in UTC, and `modified_by`
/// is the first seven characters of the base32 text of its eight bytes (RFC 4648, section 6).
///
/// Fails with `Internal` exactly if the last component is `.syncthing.tmp`, whose conflict copy would have an
/// internal name, and then does not allocate; otherwise only with `OutOfMemory`. O(n), as [`SafeName::parse`].
pub fn conflict_name(
    name: &SafeName,
    moment: Moment,
    modified_by: u64,
) -> Result<SafeName, NameFault>
    ensures answer { ParsesTo (conflict_text name.now moment modified_by) result }
    ensures safe { OnOk result (IsSafe (conflict_text name.now moment modified_by)) }
    ensures refusals { IfErr result
        (λ fault. (fault ≡ NameFault.Internal) ⊎ (fault ≡ NameFault.OutOfMemory)) }
    ensures internal { (result ≡ Err NameFault.Internal) ↔ (last_component name.now ≡ codes ".syncthing.tmp") }
{
    let shown = UtcTime::at(moment);
    let (folder, last) = text::split_last_component(name.as_str());
    if last == ".syncthing.tmp" {
        return Err(NameFault::Internal);
    }
    let (stem, extension) = text::split_extension(last);
    let mut text = format!(in name.allocator(); "{folder}{stem}.sync-conflict-")?;
    push_date_and_time(&mut text, shown)?;
    text.push('-')?;
    base32::push_short_base32(&mut text, modified_by)?;
    text.push_str(extension)?;
    SafeName::from_string(text)
}
