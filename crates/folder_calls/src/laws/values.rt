//! When two values are the same.
ghost use Rattle.std.specs.Prelude.{◌≡◌, ◌↔◌, IsTrue};
ghost use Rattle.folder_calls.specs.declared.entry.Entry.{Entry};

/// The comparison `==` of two entries is true exactly where the two are equal.
pub fn comparison_is_equality()
    ensures { (a b : Entry) → IsTrue (⟦<crate::Entry as PartialEq>⟧.eq a b) ↔ (a ≡ b) }
{}
