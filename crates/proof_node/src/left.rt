//! What a run leaves for the next.
ghost use Rattle.std.specs.Prelude.{◌≡◌, ◌≢◌, ◌<◌, ◌≤◌, ◌⊎◌, ℕ, None, Some, length, map, slice_get};
ghost use Rattle.std.specs.FinMap.{get};
ghost use Rattle.node_state.specs.declared.state.StoredFolder.{StoredFolder};
ghost use Rattle.sync_record.specs.Devices.{Identity};
ghost use Rattle.proof_node.specs.Numbers.{IsNumberAt};
ghost use Rattle.proof_node.specs.Takeovers.{EndedRun, FitsConfig, folders_of};

/// The state has just as many folders as the configuration, in its order and under its ids, with the index ids and the records in
/// the order in which they are given.
///
/// False of a definition that leaves a folder out, stores one twice or orders them otherwise, or stores one with a number or with records that
/// are another's.
pub fn each_folder_is_left_in_its_place()
    ensures count { (run : EndedRun) → FitsConfig run →
        length (folders_of run) ≡ length run.config.folders }
    ensures ids { (run : EndedRun) → FitsConfig run →
        map (λ f. f.id) (folders_of run) ≡ map (λ f. f.id) run.config.folders }
    ensures index_ids { (run : EndedRun) → FitsConfig run →
        map (λ f. f.index_id) (folders_of run) ≡ run.index_ids }
    ensures records { (run : EndedRun) → FitsConfig run →
        map (λ f. f.folder) (folders_of run) ≡ run.records }
{}

/// A number that is kept of a device stands among its peer's numbers, at a share of that very folder, and none that stands later there is of
/// the folder: of two numbers of one device the later counts. It isn't 0; and of a device of which none is kept there is none but 0.
///
/// False of a definition that keeps the earlier number, a 0, or one of a share of another folder or of another device, and of one that loses one.
pub fn the_last_number_of_a_device_is_kept()
    // A number that is kept stands at one share of one peer, whose places are `i` and `j`, and no later share has one.
    ensures last { (run : EndedRun) (place : ℕ) (f : StoredFolder) (device : Identity) (n : ℕ) →
        slice_get (folders_of run) place ≡ Some f → get f.peers device ≡ Some n →
        (i : ℕ) × (j : ℕ) × IsNumberAt place run.config.peers run.shares run.kept device i j n
        × ((k l m : ℕ) → IsNumberAt place run.config.peers run.shares run.kept device k l m → (k < i) ⊎ ((k ≡ i) × (l ≤ j))) }
    ensures never_0 { (run : EndedRun) (place : ℕ) (f : StoredFolder) (device : Identity) (n : ℕ) →
        slice_get (folders_of run) place ≡ Some f → get f.peers device ≡ Some n → n ≢ 0 }
    // Where no number is kept of a device, none stands at any share of the folder: the other case of the same look-up.
    ensures none { (run : EndedRun) (place : ℕ) (f : StoredFolder) (device : Identity) →
        slice_get (folders_of run) place ≡ Some f → get f.peers device ≡ None →
        (i j n : ℕ) → ¬ (IsNumberAt place run.config.peers run.shares run.kept device i j n) }
{}
