//! What a run takes over from the last one.
ghost use Rattle.std.specs.Prelude.{◌≡◌, ◌⊎◌, ℕ, Bool, Some, false, length, true};
ghost use Rattle.std.specs.FinMap.{empty, get};
ghost use Rattle.folder_core.specs.Announced.{key};
ghost use Rattle.folder_core.specs.States.{empty_folder};
ghost use Rattle.node_config.specs.declared.config.Config.{Config};
ghost use Rattle.node_config.specs.declared.config.FolderConfig.{FolderConfig};
ghost use Rattle.node_resume.specs.Resumed.{Resumed, resumed_all};
ghost use Rattle.node_state.specs.declared.state.State.{State};
ghost use Rattle.node_state.specs.declared.state.StoredFolder.{StoredFolder};
ghost use Rattle.sync_record.specs.Devices.{Identity};
ghost use Rattle.sync_record.specs.Records.{FileRecord, Name};
ghost use Rattle.proof_node.specs.Takeovers.{IsSharedWith, IsStoredNowhere, IsStoredUnder, IsTakenOver};

/// A run begins with just the folders of its configuration. One of which nothing is stored is empty.
///
/// False of a definition that also takes what is stored of other folders, or for a new folder what is stored of another.
pub fn a_run_begins_with_its_folders()
    ensures count { (config : Config) (state : State) (new : ℕ) (is_left : Bool) →
        length (resumed_all config state new is_left) ≡ length config.folders }
    // A folder of which nothing is stored begins empty. The premises say which folder, and that its id isn't stored.
    ensures nothing_stored { (config : Config) (state : State) (new place : ℕ) (is_left : Bool) (c : FolderConfig) (r : Resumed) →
        IsTakenOver config state new is_left place c r → IsStoredNowhere c.id state.folders →
        r.folder ≡ empty_folder config.device }
{}

/// A folder has the new index id where nothing is stored of it, and after a bad end each has it; else a stored folder keeps the number
/// of the first one of its id.
///
/// False of a definition that gives each folder a new number, or that keeps numbers after a bad end.
pub fn stored_folders_keep_their_numbers()
    ensures new { (config : Config) (state : State) (new place : ℕ) (is_left : Bool) (c : FolderConfig) (r : Resumed) →
        IsTakenOver config state new is_left place c r → IsStoredNowhere c.id state.folders → r.index_id ≡ new }
    ensures bad_end { (config : Config) (state : State) (new place : ℕ) (c : FolderConfig) (r : Resumed) →
        IsTakenOver config state new true place c r → r.index_id ≡ new }
    ensures stored { (config : Config) (state : State) (new place : ℕ) (c : FolderConfig) (r : Resumed) (f : StoredFolder) →
        IsTakenOver config state new false place c r → IsStoredUnder c.id state.folders f → r.index_id ≡ f.index_id }
{}

/// No pull is open when a run begins. A record that is there is of the folder's own device or of one with which the folder is shared, and
/// of these each record is there that is stored; the device and its last sequence are as stored, however the last run ended.
///
/// False of a definition that keeps records of devices with which only another folder is shared, drops some of a shared device or this device's
/// own, or keeps an open pull.
pub fn records_of_shared_devices_stay()
    ensures no_pulls { (config : Config) (state : State) (new place : ℕ) (is_left : Bool) (c : FolderConfig) (r : Resumed) →
        IsTakenOver config state new is_left place c r → r.folder.pulls ≡ empty }
    // Each record that is there is of the folder's own device or of one it is shared with: a choice, so one clause.
    ensures no_others { (config : Config) (state : State) (new place : ℕ) (is_left : Bool) (c : FolderConfig) (r : Resumed)
        (n : Name) (d : Identity) (q : FileRecord) →
        IsTakenOver config state new is_left place c r → get r.folder.announced (key n d) ≡ Some q →
        (d ≡ r.folder.me) ⊎ IsSharedWith config place d }
    // For these devices a name has the record that is stored, or none as there. A premise each for folder and device.
    ensures stay { (config : Config) (state : State) (new place : ℕ) (is_left : Bool) (c : FolderConfig) (r : Resumed)
        (f : StoredFolder) (n : Name) (d : Identity) →
        IsTakenOver config state new is_left place c r → IsStoredUnder c.id state.folders f →
        (d ≡ f.folder.me) ⊎ IsSharedWith config place d →
        get r.folder.announced (key n d) ≡ get f.folder.announced (key n d) }
    // The two other parts of the stored folder that come back: its device and its last sequence.
    ensures rest { (config : Config) (state : State) (new place : ℕ) (is_left : Bool) (c : FolderConfig) (r : Resumed)
        (f : StoredFolder) →
        IsTakenOver config state new is_left place c r → IsStoredUnder c.id state.folders f →
        (r.folder.me ≡ f.folder.me) × (r.folder.last ≡ f.folder.last) }
{}
