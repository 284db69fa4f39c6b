//! What indexes and forgotten devices leave announced.
ghost use Rattle.std.specs.Prelude.{◌≡◌, ◌≢◌, List, None, bytes_eq, find, reverse};
ghost use Rattle.std.specs.Option.{option_or};
ghost use Rattle.std.specs.FinMap.{get};
ghost use Rattle.sync_record.specs.Devices.{Identity};
ghost use Rattle.sync_record.specs.Records.{Name, FileRecord};
ghost use Rattle.folder_core.specs.Announced.{Announced, key, announce};
ghost use Rattle.folder_core.specs.States.{FolderState};
ghost use Rattle.folder_core.specs.declared.change.Change.TheVariants.{IndexFull, IndexMore, Forget};
ghost use Rattle.folder_core.specs.declared.answer.Answer.TheVariants.{Applied};
ghost use Rattle.folder_core.specs.Steps.{step};

/// Indexes of two devices leave the same state in either order.
pub fn indexes_in_any_order()
    ensures announced { (a : Announced) (d e : Identity) (xs ys : List FileRecord) → d ≢ e →
        announce d xs (announce e ys a) ≡ announce e ys (announce d xs a) }
    ensures full { (s : FolderState) (d e : Identity) (xs ys : List FileRecord) → d ≢ e →
        (step (step s (IndexFull d xs)).1 (IndexFull e ys)).1
        ≡ (step (step s (IndexFull e ys)).1 (IndexFull d xs)).1 }
    ensures more { (s : FolderState) (d e : Identity) (xs ys : List FileRecord) → d ≢ e →
        (step (step s (IndexMore d xs)).1 (IndexMore e ys)).1
        ≡ (step (step s (IndexMore e ys)).1 (IndexMore d xs)).1 }
    ensures full_and_more { (s : FolderState) (d e : Identity) (xs ys : List FileRecord) → d ≢ e →
        (step (step s (IndexFull d xs)).1 (IndexMore e ys)).1
        ≡ (step (step s (IndexMore e ys)).1 (IndexFull d xs)).1 }
{}

/// After a full index a device's record of a name is the last given one of the name, and there is none where
/// none was given; other devices' records are as before.
pub fn index_full_replaces()
    ensures own { (s : FolderState) (d : Identity) (records : List FileRecord) (n : Name) →
        get (step s (IndexFull d records)).1.announced (key n d)
        ≡ find (λ r. bytes_eq r.name n) (reverse records) }
    ensures others { (s : FolderState) (d e : Identity) (records : List FileRecord) (n : Name) →
        d ≢ e →
        get (step s (IndexFull d records)).1.announced (key n e) ≡ get s.announced (key n e) }
    ensures applied { (s : FolderState) (d : Identity) (records : List FileRecord) →
        (step s (IndexFull d records)).0 ≡ Applied }
{}

/// After an update of the index a device's record of a name is the last given one of the name, and as before
/// where none was given; other devices' records are as before.
pub fn index_more_adds()
    ensures own { (s : FolderState) (d : Identity) (records : List FileRecord) (n : Name) →
        get (step s (IndexMore d records)).1.announced (key n d)
        ≡ option_or (find (λ r. bytes_eq r.name n) (reverse records)) (get s.announced (key n d)) }
    ensures others { (s : FolderState) (d e : Identity) (records : List FileRecord) (n : Name) →
        d ≢ e →
        get (step s (IndexMore d records)).1.announced (key n e) ≡ get s.announced (key n e) }
    ensures applied { (s : FolderState) (d : Identity) (records : List FileRecord) →
        (step s (IndexMore d records)).0 ≡ Applied }
{}

/// A device that is forgotten announces nothing; other devices' records are as before.
pub fn forget_removes()
    ensures own { (s : FolderState) (d : Identity) (n : Name) →
        get (step s (Forget d)).1.announced (key n d) ≡ None }
    ensures others { (s : FolderState) (d e : Identity) (n : Name) → d ≢ e →
        get (step s (Forget d)).1.announced (key n e) ≡ get s.announced (key n e) }
    ensures applied { (s : FolderState) (d : Identity) → (step s (Forget d)).0 ≡ Applied }
{}
