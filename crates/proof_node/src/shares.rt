//! What is shared with a peer.
ghost use Rattle.std.specs.Prelude.{◌≡◌, ◌↔◌, ◌<◌, ℕ, Contains, None, Some, map, slice_get};
ghost use Rattle.std.specs.FinMap.{get};
ghost use Rattle.node_config.specs.declared.config.Config.{Config};
ghost use Rattle.node_config.specs.declared.config.FolderConfig.{FolderConfig};
ghost use Rattle.node_config.specs.declared.config.PeerConfig.{PeerConfig};
ghost use Rattle.node_resume.specs.Shares.{shares_of};
ghost use Rattle.node_resume.specs.declared.shares.Share.{Share};
ghost use Rattle.node_state.specs.declared.state.State.{State};
ghost use Rattle.node_state.specs.declared.state.StoredFolder.{StoredFolder};
ghost use Rattle.proof_node.specs.Firsts.{IsFirstPlace};
ghost use Rattle.proof_node.specs.Takeovers.{IsShareOf, IsStoredNowhere, IsStoredUnder};

/// The shares of a peer are of just the folders that the configuration shares with it, of each once, in the order in which they first
/// stand there.
///
/// False of a definition that lists a folder as often as it stands there, that sorts them, or that leaves one out.
pub fn each_folder_is_shared_once()
    ensures each { (config : Config) (state : State) (peer : PeerConfig) (place : ℕ) →
        Contains (map (λ s. s.folder) (shares_of config state peer)) place ↔ Contains peer.folders place }
    // Of two shares the first one's folder also stands first in the peer's list: `k` and `l` are those two places.
    ensures in_order { (config : Config) (state : State) (peer : PeerConfig) (i j : ℕ) (s t : Share) →
        i < j → slice_get (shares_of config state peer) i ≡ Some s → slice_get (shares_of config state peer) j ≡ Some t →
        (k : ℕ) × (l : ℕ) × IsFirstPlace peer.folders k s.folder × IsFirstPlace peer.folders l t.folder × (k < l) }
{}

/// The number that a peer is told is the one that the state keeps of this peer in the first folder of the same id; 0 where none is kept
/// there, where no such folder is stored, and where the configuration has no folder at the place.
///
/// False of a definition that takes the number of another device, of another folder, or of a later one of the same id.
pub fn the_stored_number_is_told()
    // The number told is the stored one. A premise for each step to it: share, folder, what is stored, number.
    ensures stored { (config : Config) (state : State) (peer : PeerConfig) (i n : ℕ) (s : Share) (c : FolderConfig)
        (f : StoredFolder) → IsShareOf config state peer i s c → IsStoredUnder c.id state.folders f →
        get f.peers peer.device ≡ Some n → s.kept_index_id ≡ n }
    // The last step fails, as no number is stored of this peer: 0 is told.
    ensures none_kept { (config : Config) (state : State) (peer : PeerConfig) (i : ℕ) (s : Share) (c : FolderConfig)
        (f : StoredFolder) → IsShareOf config state peer i s c → IsStoredUnder c.id state.folders f →
        get f.peers peer.device ≡ None → s.kept_index_id ≡ 0 }
    // The step before it fails, as nothing is stored of the folder: 0 is told.
    ensures none_stored { (config : Config) (state : State) (peer : PeerConfig) (i : ℕ) (s : Share) (c : FolderConfig) →
        IsShareOf config state peer i s c → IsStoredNowhere c.id state.folders → s.kept_index_id ≡ 0 }
    ensures no_folder { (config : Config) (state : State) (peer : PeerConfig) (i : ℕ) (s : Share) →
        slice_get (shares_of config state peer) i ≡ Some s → slice_get config.folders s.folder ≡ None →
        s.kept_index_id ≡ 0 }
{}
