//! What the definitions say, as contracts of functions that do nothing.
ghost use Rattle.std.specs.Prelude.{◌≢◌, ◌↔◌, ℕ, List, Contains, map};
ghost use Rattle.std.specs.List.Sorted.{IsStrictlySortedBy};
ghost use Rattle.std.specs.Cmp.Lexicographic.{slice_cmp};
ghost use Rattle.std.specs.Ordering.{nat_cmp};
ghost use Rattle.folder_look.specs.Tables.{Named, changes, facts_of};

/// Where each name stands once, in their order, as in any table, a name is told exactly where another thing is at it than before, or a thing where
/// nothing was, or nothing where a thing was.
pub fn exactly_what_differs_is_told()
    // Both directions in one: a name is told exactly if it differs. The premise is the same for both tables.
    ensures { (before now : List Named) (name : List ℕ) →
        IsStrictlySortedBy (slice_cmp nat_cmp) (map (λ e. e.0) before) → IsStrictlySortedBy (slice_cmp nat_cmp) (map (λ e. e.0) now) →
        Contains (changes before now) name ↔ (facts_of name before ≢ facts_of name now) }
{}
