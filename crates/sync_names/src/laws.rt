//! What the definitions say, as contracts of functions that do nothing.
ghost use Rattle.std.specs.Prelude.{◌≡◌, ◌≢◌, ◌↔◌, ◌<◌, ◌≤◌, ◌+◌, ◌++◌, ◌∷◌, [], List, ℕ, Some, None, IsUtf8, codes, bytes_eq, length, map, slice_index, take, if◌then◌else◌};
ghost use Rattle.std.specs.List.{join_with_byte};
ghost use Rattle.sync_names.specs.Base32.{base32_digit};
ghost use Rattle.sync_names.specs.Components.{components, folder_components, folder_of, last_component};
ghost use Rattle.sync_names.specs.Copies.{IsConflictCopy};
ghost use Rattle.sync_names.specs.Extension.{stem_of, extension_of};
ghost use Rattle.sync_names.specs.Internal.{IsInternal};
ghost use Rattle.sync_names.specs.Made.{temp_text, replaced_text, conflict_mark, conflict_text, IsTempText, IsReplacedText};
ghost use Rattle.sync_names.specs.Refusal.{refusal};
ghost use Rattle.sync_names.specs.Safe.{IsFirstRefusal, IsSafe};
ghost use Rattle.sync_names.specs.Utc.{utc_time, IsUtc};
ghost use Rattle.sync_names.specs.Walk.{walk, leads_to};
ghost use Rattle.sync_names.specs.declared.fault.NameFault.{NameFault};
ghost use Rattle.sync_names.specs.declared.fault.NameFault.TheVariants.{Internal};
ghost use Rattle.sync_names.specs.declared.utc.UtcTime.{UtcTime};
ghost use Rattle.sync_version.specs.declared.moment.TheConstants.Moment.{MAX_SECONDS};

/// A text is refused by the first of the tests whose condition holds, and a text that no test refuses is safe.
pub fn first_refusal()
    ensures first { (text : List ℕ) (fault : NameFault) →
        (refusal text ≡ Some fault) ↔ IsFirstRefusal fault text }
    ensures safe { (text : List ℕ) → IsUtf8 text → (refusal text ≡ None) ↔ IsSafe text }
{}

/// A safe name leads to its components below any folder, and never leaves the folder on the way; so does
/// a temporary name, and so does the name at which a file is kept while it is replaced.
pub fn names_stay_below()
    ensures whole { (folder : List (List ℕ)) (name : List ℕ) → IsSafe name →
        leads_to folder name ≡ folder ++ components name }
    ensures each_beginning { (folder : List (List ℕ)) (name : List ℕ) (n : ℕ) → IsSafe name →
        walk folder (take n (components name)) ≡ folder ++ take n (components name) }
    ensures temporary { (folder : List (List ℕ)) (name : List ℕ) → IsTempText name →
        leads_to folder name ≡ folder ++ components name }
    ensures temporary_beginning { (folder : List (List ℕ)) (name : List ℕ) (n : ℕ) → IsTempText name →
        walk folder (take n (components name)) ≡ folder ++ take n (components name) }
    ensures replaced { (folder : List (List ℕ)) (name : List ℕ) → IsReplacedText name →
        leads_to folder name ≡ folder ++ components name }
    ensures replaced_beginning { (folder : List (List ℕ)) (name : List ℕ) (n : ℕ) → IsReplacedText name →
        walk folder (take n (components name)) ≡ folder ++ take n (components name) }
{}

/// A text is its components, joined by slashes, and it is its folder followed by its last component.
pub fn components_joined()
    ensures joined { (text : List ℕ) → join_with_byte 47 (components text) ≡ text }
    ensures folder { (text : List ℕ) → text ≡ folder_of text ++ last_component text }
{}

/// A component is cut before its last dot: what follows that dot has none, and one without a dot is
/// its own stem.
pub fn extension_after_last_dot()
    ensures dot { (stem rest : List ℕ) → ((i : ℕ) → i < length rest → slice_index rest i ≢ 46) →
        stem_of (stem ++ 46 ∷ rest) ≡ stem }
    ensures extension { (stem rest : List ℕ) → ((i : ℕ) → i < length rest → slice_index rest i ≢ 46) →
        extension_of (stem ++ 46 ∷ rest) ≡ 46 ∷ rest }
    ensures whole { (component : List ℕ) → ((i : ℕ) → i < length component → slice_index component i ≢ 46) →
        stem_of component ≡ component }
    ensures nothing { (component : List ℕ) → ((i : ℕ) → i < length component → slice_index component i ≢ 46) →
        extension_of component ≡ [] }
{}

/// A temporary name is in its name's folder, and is internal, so that no safe name is one.
pub fn temporary_names_are_apart()
    ensures folder { (name : List ℕ) → folder_components (temp_text name) ≡ folder_components name }
    ensures last { (name : List ℕ) →
        last_component (temp_text name) ≡ codes ".syncthing." ++ last_component name ++ codes ".tmp" }
    ensures internal { (name : List ℕ) → IsInternal (temp_text name) }
    ensures apart { (name temporary : List ℕ) → IsSafe name → IsTempText temporary → name ≢ temporary }
    ensures one_each { (a b : List ℕ) → temp_text a ≡ temp_text b → a ≡ b }
{}

/// The name at which a file is kept while it is replaced or removed is in its folder and internal. It is the temporary name of no safe
/// name, and no two names have the same: what a folder makes for one name never stands in the place of what it makes for another.
pub fn replaced_names_are_apart()
    ensures folder { (name : List ℕ) → folder_components (replaced_text name) ≡ folder_components name }
    ensures last { (name : List ℕ) → last_component (replaced_text name)
        ≡ codes ".syncthing..syncthing." ++ last_component name ++ codes ".tmp.tmp" }
    ensures internal { (name : List ℕ) → IsInternal (replaced_text name) }
    ensures apart { (a b : List ℕ) → IsSafe b → replaced_text a ≢ temp_text b }
    ensures one_each { (a b : List ℕ) → replaced_text a ≡ replaced_text b → a ≡ b }
{}

/// A conflict copy's name is in its name's folder and is another name; it is refused exactly if
/// the name's last component is `.syncthing.tmp`, and then as internal.
pub fn conflict_names_are_beside()
    ensures folder { (name : List ℕ) (moment modified_by : ℕ) →
        folder_components (conflict_text name moment modified_by) ≡ folder_components name }
    ensures last { (name : List ℕ) (moment modified_by : ℕ) →
        last_component (conflict_text name moment modified_by)
        ≡ stem_of (last_component name) ++ conflict_mark moment modified_by
        ++ extension_of (last_component name) }
    ensures other { (name : List ℕ) (moment modified_by : ℕ) → conflict_text name moment modified_by ≢ name }
    // One equation with two cases: refused as internal for this last component, and not refused for any other.
    ensures refused { (name : List ℕ) (moment modified_by : ℕ) → IsSafe name → moment ≤ MAX_SECONDS →
        refusal (conflict_text name moment modified_by)
        ≡ (if bytes_eq (last_component name) (codes ".syncthing.tmp") then Some Internal else None) }
{}

/// The name that a conflict copy gets, whatever its moment and device, is one of a conflict copy; and a name is none of itself.
pub fn conflict_names_are_of_copies()
    ensures made { (name : List ℕ) (moment modified_by : ℕ) → moment ≤ MAX_SECONDS →
        IsConflictCopy name (conflict_text name moment modified_by) }
    ensures other { (name copy : List ℕ) → IsConflictCopy name copy → copy ≢ name }
{}

/// The time by counting is what the calendar and a clock in UTC show, and it is the only such time.
pub fn utc_is_shown()
    ensures shown { (moment : ℕ) → moment ≤ MAX_SECONDS → IsUtc moment (utc_time moment) }
    ensures only { (moment : ℕ) (a b : UtcTime) → IsUtc moment a → IsUtc moment b → a ≡ b }
{}

/// The digits of base32 are its alphabet's characters.
pub fn base32_alphabet()
    ensures { map base32_digit (0 ∷ 1 ∷ 2 ∷ 3 ∷ 4 ∷ 5 ∷ 6 ∷ 7 ∷ 8 ∷ 9 ∷ 10 ∷ 11 ∷ 12 ∷ 13 ∷ 14 ∷ 15 ∷ 16 ∷ 17
        ∷ 18 ∷ 19 ∷ 20 ∷ 21 ∷ 22 ∷ 23 ∷ 24 ∷ 25 ∷ 26 ∷ 27 ∷ 28 ∷ 29 ∷ 30 ∷ 31 ∷ [])
        ≡ codes "ABCDEFGHIJKLMNOPQRSTUVWXYZ234567" }
{}
