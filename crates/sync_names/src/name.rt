//! Safe names, parsed from text: relative paths in NFC that stay below the folder, without `.` and `..`.
ghost use Rattle.std.specs.Prelude.{◌≡◌, ◌≢◌, List, ℕ, IfOk, OnOk, MatchResult, IfSome, Err, None, string_bytes};
ghost use Rattle.std.specs.List.{list_any};
ghost use Rattle.sync_names.specs.Components.{components};
ghost use Rattle.sync_names.specs.Parsing.{IsQuick, IsToldOf, ParsesTo};
ghost use Rattle.sync_names.specs.Refusal.{is_bad_component, shape_refusal, refusal};
ghost use Rattle.sync_names.specs.Safe.{IsSafe};

use crate::{NameFault, is_internal};
use std::alloc::{AllocError, Global};
use std::marker::Model;
use unicode_normalization::is_nfc;

/// The name of a file or directory below a folder: a text that leads nowhere else.
///
/// It is relative, with `/` between its components, none of which is empty, `.` or `..`. It has no
/// U+0000, is in the form NFC (Unicode Standard Annex 15), and isn't a name that a folder keeps for
/// itself.
#[derive(Drop, Debug)]
pub struct SafeName {
    text: String,
}

impl Model for SafeName {
    ghost use Rattle.std.specs.Prelude.{ℕ, List, string_bytes};
    ghost use Rattle.sync_names.specs.Safe.{IsSafe};

    ghost Value = { List ℕ };

    ghost view = { λ name. string_bytes name.text };

    ghost invariant = { λ name. IsSafe (string_bytes name.text) };
}

impl SafeName {
    /// The name with this text.
    ///
    /// Fails with the first of these that applies: `Empty`, `Absolute` (the text begins with `/`), `Nul`,
    /// `BadComponent` (a component is empty, `.` or `..`), `NotNfc`, `Internal` ([`is_internal`]). The first four are
    /// never replaced by `OutOfMemory`, nor are the others if the quick check of the form decides (Unicode Standard
    /// Annex 15, section 9), as it does of every ASCII text. The copy of a safe text may fail with `OutOfMemory`.
    /// O(n) for n bytes, and O(k log k) for each run of k combining marks.
    pub fn parse(alloc: Global, text: &str) -> Result<SafeName, NameFault>
        ensures answer { ParsesTo text.now result }
        ensures safe { OnOk result (IsSafe text.now) }
        ensures shape { IfSome (shape_refusal text.now) (λ fault. result ≡ Err fault) }
        ensures quick { IsQuick text.now → IfSome (refusal text.now) (λ fault. result ≡ Err fault) }
    {
        refuse(alloc, text)?;
        let text = String::from_str(alloc, text)?;
        Ok(SafeName { text })
    }

    /// The name with this text, as [`SafeName::parse`], in the memory of the text itself: it is not copied. Fails with
    /// `OutOfMemory` only if the quick check of the form doesn't decide.
    pub fn from_string(text: String) -> Result<SafeName, NameFault>
        ensures answer { ParsesTo (string_bytes text) result }
        ensures safe { OnOk result (IsSafe (string_bytes text)) }
        ensures shape { IfSome (shape_refusal (string_bytes text)) (λ fault. result ≡ Err fault) }
        ensures quick { IsQuick (string_bytes text) → result ≢ Err NameFault.OutOfMemory }
    {
        refuse(*text.allocator(), text.as_str())?;
        Ok(SafeName { text })
    }

    /// The allocator of the name's text.
    pub(crate) fn allocator(&self) -> Global {
        *self.text.allocator()
    }

    /// The text of the name. O(1).
    pub fn as_str(&self) -> &str
        ensures value { result.now ≡ self.now }
        ensures safe { IsSafe result.now }
    {
        self.text.as_str()
    }

    /// Another copy of the name. O(n).
    pub fn copy(&self) -> Result<SafeName, AllocError>
        ensures { IfOk result (λ name. name ≡ self.now) }
    {
        let text = self.text.clone()?;
        Ok(SafeName { text })
    }
}

/// All tests of a safe name, in their order.
fn refuse(alloc: Global, text: &str) -> Result<(), NameFault>
    ensures answer { MatchResult result (λ _. refusal text.now ≡ None) (IsToldOf text.now) }
    ensures safe { OnOk result (IsSafe text.now) }
    ensures shape { IfSome (shape_refusal text.now) (λ fault. result ≡ Err fault) }
    ensures quick { IsQuick text.now → result ≢ Err NameFault.OutOfMemory }
{
    if let Some(fault) = shape_refusal(text) {
        return Err(fault);
    }
    if !is_nfc(alloc, text)? {
        return Err(NameFault::NotNfc);
    }
    if is_internal(text) {
        return Err(NameFault::Internal);
    }
    Ok(())
}

/// The first of the tests of the shape, which don't allocate, that refuses the text.
#[tactic(auto, unfolding(crate::specs::Refusal::shape_refusal))]
fn shape_refusal(text: &str) -> Option<NameFault>
    ensures { result ≡ shape_refusal text.now }
{
    if text.is_empty() {
        return Some(NameFault::Empty);
    }
    if text.starts_with('/') {
        return Some(NameFault::Absolute);
    }
    if text.contains('\0') {
        return Some(NameFault::Nul);
    }
    if has_bad_component(text) {
        return Some(NameFault::BadComponent);
    }
    None
}

fn has_bad_component(text: &str) -> bool
    ensures { result ≡ list_any is_bad_component (components text.now) }
{
    text.split('/').any(|component| is_bad_component(component))
}

fn is_bad_component(component: &str) -> bool
    ensures { result ≡ is_bad_component component.now }
{
    component.is_empty() || component == "." || component == ".."
}
