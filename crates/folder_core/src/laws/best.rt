//! The best of a name, and who has it.
ghost use Rattle.std.specs.Prelude.{◌≡◌, ◌≢◌, ◌↔◌, List, Some, None, IsTrue, false, filter_map, map, Contains};
ghost use Rattle.std.specs.List.Sorted.{IsStrictlySortedBy};
ghost use Rattle.std.specs.FinMap.{get, entries};
ghost use Rattle.sync_version.specs.Versions.{Dominates};
ghost use Rattle.sync_record.specs.Devices.{Identity, bytes_cmp};
ghost use Rattle.sync_record.specs.Records.{Name, FileRecord};
ghost use Rattle.sync_record.specs.Contents.{same_content};
ghost use Rattle.sync_record.specs.Validity.{is_valid};
ghost use Rattle.folder_core.specs.Announced.{Announced, KeyedRecord, Key, key, announce, best, bests, devices_of, IsBest};

/// The best that is found is the candidate preferred to every other, and there is exactly one wherever a
/// valid record of the name is announced. No valid record of the name dominates it.
pub fn best_is_preferred()
    ensures found { (a : Announced) (n : Name) (e : KeyedRecord) →
        best (entries a) n ≡ Some e → (e.0.name ≡ n) × IsBest a n e.0.device e.1 }
    ensures only { (a : Announced) (n : Name) (d : Identity) (r : FileRecord) →
        IsBest a n d r → best (entries a) n ≡ Some (key n d, r) }
    ensures one { (a : Announced) (n : Name) (d e : Identity) (q r : FileRecord) →
        IsBest a n d q → IsBest a n e r → (d ≡ e) × (q ≡ r) }
    ensures some { (a : Announced) (n : Name) (d : Identity) (r : FileRecord) →
        get a (key n d) ≡ Some r → IsTrue (is_valid r) → (e : KeyedRecord)
        × (best (entries a) n ≡ Some e) }
    ensures none { (a : Announced) (n : Name) →
        (best (entries a) n ≡ None) ↔ ((d : Identity) (r : FileRecord) → get a (key n d) ≡ Some r →
        is_valid r ≡ false) }
    ensures undominated { (a : Announced) (n : Name) (e : KeyedRecord) (d : Identity)
        (r : FileRecord) →
        best (entries a) n ≡ Some e → get a (key n d) ≡ Some r → IsTrue (is_valid r) →
        ¬ (Dominates r.version e.1.version) }
{}

/// The list of all bests has the best of each name that has one, once, in byte order of the names; and looked up
/// name by name, over any rising names among which all of them are, it is the same list.
pub fn bests_are_listed_once_in_order()
    ensures rise { (a : Announced) →
        IsStrictlySortedBy bytes_cmp (map (λ e. e.0.name) (bests (entries a))) }
    ensures listed { (a : Announced) (n : Name) (e : KeyedRecord) →
        (Contains (bests (entries a)) e × (e.0.name ≡ n)) ↔ (best (entries a) n ≡ Some e) }
    // Looked up name by name, the bests are the same list. Both premises, rising and complete, are on the same names.
    ensures by_name { (a : Announced) (names : List Name) → IsStrictlySortedBy bytes_cmp names →
        ((e : KeyedRecord) → Contains (bests (entries a)) e → Contains names e.0.name) →
        filter_map (λ n. best (entries a) n) names ≡ bests (entries a) }
{}

/// In whatever order the announced records are listed, as long as all of them are and nothing else is, and in whatever order
/// two devices announced theirs, the best of each name is the same.
pub fn best_in_any_order()
    ensures listed { (a : Announced) (es : List KeyedRecord) (n : Name) →
        ((k : Key) (r : FileRecord) → get a k ≡ Some r → Contains es (k, r)) →
        ((e : KeyedRecord) → Contains es e → get a e.0 ≡ Some e.1) →
        best es n ≡ best (entries a) n }
    ensures announced { (a : Announced) (d e : Identity) (xs ys : List FileRecord) (n : Name) →
        d ≢ e →
        best (entries (announce d xs (announce e ys a))) n
        ≡ best (entries (announce e ys (announce d xs a))) n }
{}

/// The devices of a best rise, and are those whose valid record of the name has its version and its content.
pub fn devices_have_the_best()
    ensures rise { (a : Announced) (e : KeyedRecord) →
        IsStrictlySortedBy bytes_cmp (devices_of (entries a) e) }
    // Both directions in one: a device is listed exactly if its valid record has the best's version and content.
    ensures listed { (a : Announced) (n : Name) (e : KeyedRecord) (d : Identity) →
        best (entries a) n ≡ Some e →
        Contains (devices_of (entries a) e) d ↔ ((r : FileRecord) × (get a (key n d) ≡ Some r)
        × IsTrue (is_valid r) × (r.version ≡ e.1.version) × IsTrue (same_content r e.1)) }
{}
