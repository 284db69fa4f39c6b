//! What the definitions say, as contracts of functions that do nothing.
ghost use Rattle.std.specs.Prelude.{◌≡◌, ◌↔◌, ℕ, List, IsTrue, false};
ghost use Rattle.sync_version.specs.declared.relation.Relation.{Relation};
ghost use Rattle.sync_version.specs.Versions.{Vector, IsCanonical, counter, Covers, Dominates, IsRelation};
ghost use Rattle.sync_version.specs.Versions.{IsMergeOf, IsRaiseOf, IsGatheredFrom};
ghost use Rattle.sync_version.specs.Computed.{same_version, covers, dominates, relation, turned};
ghost use Rattle.sync_version.specs.Computed.{merge, raised, from_counters};

/// Vectors with the same counters are equal, and that is what `==` tests.
pub fn same_counters_are_equal_vectors()
    ensures equal { (a b : Vector) → IsCanonical a → IsCanonical b →
        ((id : ℕ) → counter a id ≡ counter b id) → a ≡ b }
    ensures tested { (a b : Vector) → IsTrue (same_version a b) ↔ (a ≡ b) }
{}

/// The tests of covering and domination are exact; no vector dominates itself, and domination is transitive.
pub fn domination_is_an_order()
    ensures covers { (a b : Vector) → IsTrue (covers a b) ↔ Covers a b }
    ensures dominates { (a b : Vector) → IsTrue (dominates a b) ↔ Dominates a b }
    ensures irreflexive { (v : Vector) → dominates v v ≡ false }
    ensures transitive { (a b c : Vector) →
        IsTrue (dominates a b) → IsTrue (dominates b c) → IsTrue (dominates a c) }
{}

/// Of any two vectors exactly one of the four relations holds, and that of the second to the first is the turned one.
pub fn one_relation_holds()
    ensures holds { (a b : Vector) → IsCanonical a → IsCanonical b → IsRelation (relation a b) a b }
    ensures only { (a b : Vector) (r : Relation) → IsRelation r a b → r ≡ relation a b }
    ensures turned { (a b : Vector) → relation b a ≡ turned (relation a b) }
{}

/// A merge has the greater of each two counters, and it is the only such vector.
pub fn merge_is_greatest_counters()
    ensures holds { (a b : Vector) → IsCanonical a → IsCanonical b → IsMergeOf a b (merge a b) }
    ensures only { (a b v : Vector) → IsCanonical a → IsCanonical b → IsMergeOf a b v → v ≡ merge a b }
{}

/// A merge covers both vectors, and whatever covers both covers it.
pub fn merge_is_least_above()
    ensures first { (a b : Vector) → IsCanonical a → IsCanonical b → IsTrue (covers (merge a b) a) }
    ensures second { (a b : Vector) → IsCanonical a → IsCanonical b → IsTrue (covers (merge a b) b) }
    ensures least { (a b v : Vector) → IsCanonical a → IsCanonical b →
        IsTrue (covers v a) → IsTrue (covers v b) → IsTrue (covers v (merge a b)) }
{}

/// The order of merges makes no difference, and repeating one makes none.
pub fn merge_in_any_order()
    ensures commutative { (a b : Vector) → IsCanonical a → IsCanonical b → merge a b ≡ merge b a }
    ensures associative { (a b c : Vector) → IsCanonical a → IsCanonical b → IsCanonical c →
        merge (merge a b) c ≡ merge a (merge b c) }
    ensures idempotent { (v : Vector) → IsCanonical v → merge v v ≡ v }
{}

/// A raise changes one counter, and the raised vector dominates the old one.
pub fn raise_dominates()
    ensures holds { (v : Vector) (id moment : ℕ) → IsCanonical v →
        IsRaiseOf v id moment (raised v id moment) }
    ensures only { (v : Vector) (id moment : ℕ) (new : Vector) → IsCanonical v →
        IsRaiseOf v id moment new → new ≡ raised v id moment }
    ensures dominates { (v : Vector) (id moment : ℕ) → IsTrue (dominates (raised v id moment) v) }
{}

/// Pairs in any order give the one vector of the greatest value at each id, and a canonical list gives itself.
pub fn pairs_give_one_vector()
    ensures holds { (pairs : List (ℕ × ℕ)) → IsGatheredFrom pairs (from_counters pairs) }
    ensures only { (pairs : List (ℕ × ℕ)) (v : Vector) → IsGatheredFrom pairs v → v ≡ from_counters pairs }
    ensures canonical { (v : Vector) → IsCanonical v → from_counters v ≡ v }
{}
