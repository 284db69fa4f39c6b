//! What the definitions say, as contracts of functions that do nothing.
ghost use Rattle.std.specs.Prelude.{◌≡◌, ◌≢◌, ◌↔◌, ◌⊎◌, ◌<◌, ◌<ℤ◌, ◌++◌, ◌∷◌, ℕ, List, [], ◌&&◌, ◌||◌, IsTrue, false, not, pos, true};
ghost use Rattle.std.specs.Cmp.{IsTotalOrder};
ghost use Rattle.bep_messages.specs.declared.file_info.FileInfo.{FileInfo};
ghost use Rattle.std.specs.declared.cmp.Ordering.TheVariants.{Less};
ghost use Rattle.sync_record.specs.Devices.{Identity, bytes_cmp};
ghost use Rattle.sync_record.specs.Records.{FileRecord, is_directory, is_file, is_live, is_live_file};
ghost use Rattle.sync_record.specs.Contents.{same_content};
ghost use Rattle.sync_record.specs.Infos.{is_file_info, is_live_file_info, record_of};
ghost use Rattle.sync_record.specs.Preference.{AreAsOld, is_preferred, preference};
ghost use Rattle.sync_record.specs.Same.{same_record};
ghost use Rattle.sync_record.specs.Validity.{IsKept, describes_file, is_valid};

/// Of the records of two devices exactly one is preferred, and preference goes along a chain.
pub fn preference_is_a_strict_order()
    ensures order { IsTotalOrder preference }
    ensures irreflexive { (a : Identity × FileRecord) → is_preferred a a ≡ false }
    ensures asymmetric { (a b : Identity × FileRecord) →
        IsTrue (is_preferred a b) → is_preferred b a ≡ false }
    ensures transitive { (a b c : Identity × FileRecord) →
        IsTrue (is_preferred a b) → IsTrue (is_preferred b c) → IsTrue (is_preferred a c) }
    ensures total { (a b : Identity × FileRecord) → a.0 ≢ b.0 →
        IsTrue (is_preferred a b) ⊎ IsTrue (is_preferred b a) }
{}

/// The first difference decides which of two is preferred: the live one; the one of the later second, and of the later
/// nanosecond; of the smaller author; of the greater id, and of the greater value, in the first pair of counters that
/// differs; the one that has more counters where the other's are a beginning of them; the one of the smaller device.
pub fn the_first_difference_decides()
    ensures life { (a b : Identity × FileRecord) → IsTrue (is_live a.1) → is_live b.1 ≡ false → IsTrue (is_preferred a b) }
    ensures second { (a b : Identity × FileRecord) → a.1.deleted ≡ b.1.deleted →
        b.1.modified_s <ℤ a.1.modified_s → IsTrue (is_preferred a b) }
    ensures nanosecond { (a b : Identity × FileRecord) → a.1.deleted ≡ b.1.deleted → a.1.modified_s ≡ b.1.modified_s →
        b.1.modified_ns <ℤ a.1.modified_ns → IsTrue (is_preferred a b) }
    ensures author { (a b : Identity × FileRecord) → AreAsOld a.1 b.1 →
        a.1.modified_by < b.1.modified_by → IsTrue (is_preferred a b) }
    // The versions are alike up to the pairs `c` and `d`, and these have other ids: the greater id is preferred.
    ensures id { (a b : Identity × FileRecord) → AreAsOld a.1 b.1 → a.1.modified_by ≡ b.1.modified_by →
        (same cs ds : List (ℕ × ℕ)) (c d : ℕ × ℕ) → a.1.version ≡ same ++ c ∷ cs → b.1.version ≡ same ++ d ∷ ds →
        d.0 < c.0 → IsTrue (is_preferred a b) }
    // The same where these two pairs have one id: the greater value is preferred.
    ensures value { (a b : Identity × FileRecord) → AreAsOld a.1 b.1 → a.1.modified_by ≡ b.1.modified_by →
        (same cs ds : List (ℕ × ℕ)) (c d : ℕ × ℕ) → a.1.version ≡ same ++ c ∷ cs → b.1.version ≡ same ++ d ∷ ds →
        c.0 ≡ d.0 → d.1 < c.1 → IsTrue (is_preferred a b) }
    ensures more { (a b : Identity × FileRecord) → AreAsOld a.1 b.1 → a.1.modified_by ≡ b.1.modified_by →
        (cs : List (ℕ × ℕ)) (c : ℕ × ℕ) → a.1.version ≡ b.1.version ++ c ∷ cs → IsTrue (is_preferred a b) }
    ensures device { (a b : Identity × FileRecord) → AreAsOld a.1 b.1 → a.1.modified_by ≡ b.1.modified_by →
        a.1.version ≡ b.1.version → bytes_cmp a.0 b.0 ≡ Less → IsTrue (is_preferred a b) }
{}

/// To be of the same content is an equivalence.
pub fn same_content_is_an_equivalence()
    ensures reflexive { (a : FileRecord) → IsTrue (same_content a a) }
    ensures symmetric { (a b : FileRecord) → same_content a b ≡ same_content b a }
    ensures transitive { (a b c : FileRecord) →
        IsTrue (same_content a b) → IsTrue (same_content b c) → IsTrue (same_content a c) }
{}

/// A deletion has the content of deletions, a live directory that of live directories, a live file that of live files of its
/// size and, where it isn't empty, of its block size and blocks, and anything else that of the live ones of its type that
/// lead where it leads.
pub fn same_content_in_words()
    ensures deletions { (a b : FileRecord) → a.deleted ≡ true → IsTrue (same_content a b) ↔ (b.deleted ≡ true) }
    ensures directories { (a b : FileRecord) → a.deleted ≡ false → IsTrue (is_directory a) →
        IsTrue (same_content a b) ↔ ((b.deleted ≡ false) × IsTrue (is_directory b)) }
    // Both directions in one: the same content as a live file has exactly a live file of that size and those blocks.
    ensures files { (a b : FileRecord) → a.deleted ≡ false → IsTrue (is_file a) →
        IsTrue (same_content a b) ↔ ((b.deleted ≡ false) × IsTrue (is_file b) × (a.size ≡ b.size)
        × ((a.size ≡ pos 0) ⊎ ((a.block_size ≡ b.block_size) × (a.blocks ≡ b.blocks)))) }
    ensures others { (a b : FileRecord) → a.deleted ≡ false → is_file a ≡ false → is_directory a ≡ false →
        IsTrue (same_content a b)
        ↔ ((b.deleted ≡ false) × (a.type_number ≡ b.type_number) × (a.symlink_target ≡ b.symlink_target)) }
{}

/// Records are the same as a test where they agree in every field, and nowhere else.
pub fn same_record_is_equality()
    ensures { (a b : FileRecord) → IsTrue (same_record a b) ↔ (a ≡ b) }
{}

/// Of a message that isn't well formed the record is invalid and has no blocks, and what isn't a live file has none. Any
/// other record is valid where the message isn't marked invalid. The blocks of a valid live file make it up.
pub fn only_well_formed_files_have_blocks()
    ensures kept { (info : FileInfo) → IsKept (record_of info) }
    ensures broken { (info : FileInfo) → IsTrue (is_live_file_info info) → is_file_info info ≡ false →
        ((record_of info).invalid ≡ true) × ((record_of info).blocks ≡ []) }
    ensures no_file { (info : FileInfo) → is_live_file_info info ≡ false → (record_of info).blocks ≡ [] }
    ensures valid { (info : FileInfo) →
        is_valid (record_of info) ≡ (not info.invalid && (not (is_live_file_info info) || is_file_info info)) }
    ensures whole { (r : FileRecord) → IsTrue (is_valid r) → IsTrue (is_live_file r) →
        IsTrue (describes_file r.size r.block_size r.blocks) }
{}
