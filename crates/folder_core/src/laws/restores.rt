//! What a folder may be restored from.
ghost use Rattle.std.specs.Prelude.{◌≡◌, ◌≢◌, ◌↔◌, ℤ, pos, negsuc, List, [], ◌∷◌, Some, true, Contains, AllPairs, IsTrue};
ghost use Rattle.std.specs.FinMap.{empty, get};
ghost use Rattle.sync_record.specs.Devices.{Identity};
ghost use Rattle.sync_record.specs.Infos.{is_natural};
ghost use Rattle.sync_record.specs.Records.{Name, FileRecord};
ghost use Rattle.folder_core.specs.Announced.{key};
ghost use Rattle.folder_core.specs.States.{FolderState, IsFolder};
ghost use Rattle.folder_core.specs.Restores.{MayRestore, key_of, records_of, restored_folder};
ghost use Rattle.folder_core.specs.Samples.{me, p1, p2, x, y, file, recorded};

/// A folder may be restored from records, one a device and name, and a last sequence that isn't negative exactly where what is
/// restored is a folder. It has just the given records, each under its device and name, that last sequence and no open pull.
/// Every folder may be restored from its own records, and is then as it was, but without its open pulls.
pub fn restored_folders_are_folders()
    // Exactly when records may be restored: a last sequence of 0 or more, one record a key, and a folder as result.
    ensures folder { (me : Identity) (records : List (Identity × FileRecord)) (last : ℤ) →
        MayRestore me records last ↔ (IsTrue (is_natural last)
        × AllPairs (λ p q. key_of p ≢ key_of q) records
        × IsFolder (restored_folder me records last)) }
    // Both directions in one: a record is there exactly if it was given, and it is under its device and name.
    ensures records { (me : Identity) (records : List (Identity × FileRecord)) (last : ℤ)
        (d : Identity) (n : Name) (r : FileRecord) →
        MayRestore me records last →
        (get (restored_folder me records last).announced (key n d) ≡ Some r)
        ↔ (Contains records (d, r) × (r.name ≡ n)) }
    // The three other fields of the restored state: its device, its last sequence, and that no pull is open.
    ensures rest { (me : Identity) (records : List (Identity × FileRecord)) (last : ℤ) →
        MayRestore me records last →
        ((restored_folder me records last).me ≡ me)
        × (pos (restored_folder me records last).last ≡ last)
        × ((restored_folder me records last).pulls ≡ empty) }
    ensures again { (s : FolderState) → IsFolder s → MayRestore s.me (records_of s) (pos s.last)
        × (restored_folder s.me (records_of s) (pos s.last) ≡ record s { pulls = empty }) }
{}

/// Worked rows: what may be restored, and each reason why something may not.
pub fn restores_in_rows()
    ensures two { MayRestore me ((me, recorded x 2) ∷ (me, recorded y 1) ∷ []) (pos 2) }
    ensures of_others { MayRestore me
        ((p1, record (recorded x 0) { invalid = true }) ∷ (p1, recorded y 9) ∷ (
          p2,
          recorded x
              9,
        ) ∷ []) (pos 0) }
    ensures negative { ¬ (MayRestore me [] (negsuc 0)) }
    ensures too_great { ¬ (MayRestore me [] (pos 9223372036854775808)) }
    ensures repeated_name { ¬ (MayRestore me
        ((p1, file ((1, 1) ∷ []) 1) ∷ (p2, file ((1, 1) ∷ []) 1) ∷ (p1, file ((1, 2) ∷ []) 2) ∷ [])
        (pos 0)) }
    ensures invalid { ¬ (MayRestore me ((me, record (recorded x 1) { invalid = true }) ∷ [])
        (pos 1)) }
    ensures repeated_sequence { ¬ (MayRestore me ((me, recorded x 1) ∷ (me, recorded y 1) ∷ [])
        (pos 2)) }
    ensures zero { ¬ (MayRestore me ((me, recorded x 0) ∷ []) (pos 2)) }
    ensures above_last { ¬ (MayRestore me ((me, recorded x 3) ∷ []) (pos 2)) }
{}
