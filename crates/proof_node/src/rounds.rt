//! What is left by one run, and taken over by the next with the same configuration.
ghost use Rattle.std.specs.Prelude.{◌≡◌, ◌<◌, ◌⊎◌, ℕ, Contains, List, Some, length, map, slice_get};
ghost use Rattle.std.specs.FinMap.{get};
ghost use Rattle.folder_core.specs.Announced.{key};
ghost use Rattle.folder_core.specs.States.{FolderState};
ghost use Rattle.node_config.specs.declared.config.PeerConfig.{PeerConfig};
ghost use Rattle.node_resume.specs.Resumed.{Resumed};
ghost use Rattle.node_resume.specs.Shares.{shares_of};
ghost use Rattle.node_state.specs.declared.state.State.{State};
ghost use Rattle.sync_record.specs.Devices.{Identity};
ghost use Rattle.sync_record.specs.Records.{Name};
ghost use Rattle.proof_node.specs.Takeovers.{EndedRun, FitsConfig, HaveOwnDevices, HaveOwnIds, IsSharedWith, next_folders, state_of};

/// Where no two folders have one id, and nothing may be missing, the next run has the index ids that it left, and in the place of each
/// folder its device, its last sequence and its records: its own, and those of the devices with which it is shared.
///
/// False where what is left and what is taken over don't fit each other, as where one goes by ids and the other by places.
pub fn folders_come_back()
    ensures index_ids { (run : EndedRun) (new : ℕ) →
        FitsConfig run → HaveOwnIds run.config.folders →
        map (λ r. r.index_id) (next_folders run new) ≡ run.index_ids }
    // A record comes back in its folder's place. A premise each: the place, what was and what is there, the device.
    ensures records { (run : EndedRun) (new place : ℕ) (s : FolderState) (r : Resumed) (n : Name) (d : Identity) →
        FitsConfig run → HaveOwnIds run.config.folders →
        slice_get run.records place ≡ Some s → slice_get (next_folders run new) place ≡ Some r →
        (d ≡ s.me) ⊎ IsSharedWith run.config place d →
        get r.folder.announced (key n d) ≡ get s.announced (key n d) }
    // The folder's device and its last sequence come back, under the same premises but that of a record's device.
    ensures rest { (run : EndedRun) (new place : ℕ) (s : FolderState) (r : Resumed) →
        FitsConfig run → HaveOwnIds run.config.folders →
        slice_get run.records place ≡ Some s → slice_get (next_folders run new) place ≡ Some r →
        (r.folder.me ≡ s.me) × (r.folder.last ≡ s.last) }
{}

/// Where also no two peers are one device, and the run that ended had a number for each of its shares of a peer, the next run has for each of
/// them that number.
///
/// False where a number is left under another device or in another folder than it is looked for.
pub fn kept_numbers_come_back()
    // A peer's numbers come back as they were. The premises fit the lists of one run to each other, for one peer `i`.
    ensures { (run : EndedRun) (old : State) (i : ℕ) (peer : PeerConfig) (numbers : List ℕ) →
        FitsConfig run → HaveOwnIds run.config.folders →
        HaveOwnDevices run.config.peers → slice_get run.config.peers i ≡ Some peer →
        ((place : ℕ) → Contains peer.folders place → place < length run.config.folders) →
        slice_get run.shares i ≡ Some (shares_of run.config old peer) → slice_get run.kept i ≡ Some numbers →
        length numbers ≡ length (shares_of run.config old peer) →
        map (λ s. s.kept_index_id) (shares_of run.config (state_of run) peer) ≡ numbers }
{}
