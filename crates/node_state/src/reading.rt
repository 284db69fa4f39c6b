//! The bytes of a state file, version 1 or 2, decoded: folders with their records and the peers' index ids.
ghost use Rattle.std.specs.Prelude.{◌≡◌, ◌≢◌, ◌++◌, [], None, bytes_eq, filter, length, map, AllPairs, IfErr, IfNone, IfOk, IfSome, List, ℕ};
ghost use Rattle.std.specs.FinMap.{from_entries};
ghost use Rattle.std.specs.List.{AllByRecursion, list_any};
ghost use Rattle.bep_messages.specs.Values.{value};
ghost use Rattle.bep_wire.specs.Fields.{fields};
ghost use Rattle.folder_core.specs.PlainRestores.{given};
ghost use Rattle.folder_core.specs.Restores.{MayRestore, restored_folder};
ghost use Rattle.node_state.specs.declared.fault.StateFault.TheVariants.{OutOfMemory};
ghost use Rattle.node_state.specs.Meaning.{Means, announced, line, peer_of, stored};
ghost use Rattle.node_state.specs.declared.edition.Edition.{Edition as Version};
ghost use Rattle.node_state.specs.declared.state.State.{State as Stored};
ghost use Rattle.node_state.specs.Peers.{is_kept, pair};
ghost use Rattle.node_state.specs.Reading.{AreOnce, HasFolder, IsGoodEntry, IsGoodFolder, IsGoodPeer, folder_told, held, peer_pairs, peers_held};
ghost use Rattle.node_state.specs.Tables.{entry_table, peer_table};

use crate::edition::Edition;
use crate::entry::Entry;
use crate::fault::{Problem, StateFault};
use crate::front::Front;
use crate::held::{next_held, read_message};
use crate::kept::{KeptIndexes, PeerIndex};
use crate::peer::Peer;
use crate::state::{State, StoredFolder};
use crate::writing::SECOND_LINE;
use bep_messages::{Items, ShortOctets, Text};
use folder_core::{Announcement, PlainFolder, RestoreFault};
use std::alloc::Global;
use sync_names::NameFault;
use sync_record::{DeviceId, Record};

/// The first line of a state file of version 1, with its line feed.
const FIRST_LINE: [u8; 13] = *b"bepd state 1\n";

// The device with these bytes, of which there must be 32.
fn read_device(bytes: &ShortOctets) -> Result<DeviceId, StateFault>
    ensures ok { IfOk result (λ d. (length bytes.now ≡ 32) × (d ≡ bytes.now)) }
    ensures err { IfErr result (λ _. length bytes.now ≢ 32) }
{
    match <[u8; 32]>::try_from(bytes.as_slice()) {
        Ok(bytes) => Ok(DeviceId::new(bytes)),
        Err(_) => Err(StateFault::BadState(Problem::Device)),
    }
}

// The announcement of an entry's bytes.
fn read_entry(alloc: Global, bytes: &[u8]) -> Result<Announcement, StateFault>
    ensures ok { IfOk result (λ a. IsGoodEntry bytes.now × (given a ≡ announced (value entry_table bytes.now))) }
    ensures err { IfErr result (λ e. e ≢ OutOfMemory → ¬ (IsGoodEntry bytes.now)) }
{
    let Entry { device, file } = read_message::<Entry>(alloc, bytes)?;
    let device = read_device(&device)?;
    match Record::from_info(alloc, file) {
        Ok(record) => Ok(Announcement { device, record }),
        Err(NameFault::OutOfMemory) => Err(StateFault::OutOfMemory),
        Err(_) => Err(StateFault::BadState(Problem::Name)),
    }
}

// The announcements of a folder's field 4.
fn read_entries(alloc: Global, source: &[u8]) -> Result<Vec<Announcement>, StateFault>
    ensures ended { IfOk result (λ _. (fields source.now).fault ≡ None) }
    ensures good { IfOk result (λ _. AllByRecursion IsGoodEntry (held 4 source.now)) }
    ensures value { IfOk result (λ entries. map given entries.items
        ≡ map (λ b. announced (value entry_table b)) (held 4 source.now)) }
    ensures err { IfErr result (λ e. e ≢ OutOfMemory → (fields source.now).fault ≡ None →
        ¬ (AllByRecursion IsGoodEntry (held 4 source.now))) }
{
    let mut entries = Vec::new(alloc);
    let mut at = 0;
    while let Some((start, end)) = next_held(source, at, 4)? {
        entries.push(read_entry(alloc, &source[start..end])?)?;
        at = end;
    }
    Ok(entries)
}

// The peer of its bytes.
fn read_peer(alloc: Global, bytes: &[u8]) -> Result<PeerIndex, StateFault>
    ensures ok { IfOk result (λ p. IsGoodPeer bytes.now × (pair p ≡ peer_of (value peer_table bytes.now))) }
    ensures err { IfErr result (λ e. e ≢ OutOfMemory → ¬ (IsGoodPeer bytes.now)) }
{
    let Peer { device, index_id } = read_message::<Peer>(alloc, bytes)?;
    let device = read_device(&device)?;
    Ok(PeerIndex { device, index_id })
}

// The peers of a folder's field 5.
fn read_peers(alloc: Global, source: &[u8]) -> Result<Vec<PeerIndex>, StateFault>
    ensures ended { IfOk result (λ _. (fields source.now).fault ≡ None) }
    ensures good { IfOk result (λ _. AllByRecursion IsGoodPeer (held 5 source.now)) }
    ensures value { IfOk result (λ peers. map pair peers.items
        ≡ map (λ b. peer_of (value peer_table b)) (held 5 source.now)) }
    ensures err { IfErr result (λ e. e ≢ OutOfMemory → (fields source.now).fault ≡ None →
        ¬ (AllByRecursion IsGoodPeer (held 5 source.now))) }
{
    let mut peers = Vec::new(alloc);
    let mut at = 0;
    while let Some((start, end)) = next_held(source, at, 5)? {
        peers.push(read_peer(alloc, &source[start..end])?)?;
        at = end;
    }
    Ok(peers)
}

// Whether one of the peers is the device.
fn has_device(peers: &[PeerIndex], device: DeviceId) -> bool
    ensures { result ≡ list_any (λ p. bytes_eq p.device device) peers.now }
{
    peers.iter().any(|peer| peer.device == device)
}

// The index ids of these peers, of which no two may be one.
fn keep(alloc: Global, peers: &[PeerIndex]) -> Result<KeptIndexes, StateFault>
    ensures once { IfOk result (λ _. AreOnce (map pair peers.now)) }
    ensures value { IfOk result (λ kept. kept ≡ from_entries (filter is_kept (map pair peers.now))) }
    ensures err { IfErr result (λ e. e ≢ OutOfMemory → ¬ (AreOnce (map pair peers.now))) }
{
    let mut kept = KeptIndexes::new(alloc);
    for at in 0..peers.len() {
        let peer = peers[at];
        if has_device(&peers[..at], peer.device) {
            return Err(StateFault::BadState(Problem::RepeatedPeer));
        }
        if peer.index_id != 0 {
            kept.insert(peer.device, peer.index_id)?;
        }
    }
    Ok(kept)
}

// The index ids that a folder of this version keeps.
fn read_kept(alloc: Global, edition: Edition, source: &[u8]) -> Result<KeptIndexes, StateFault>
    ensures good { IfOk result (λ _. AllByRecursion IsGoodPeer (peers_held edition source.now)) }
    ensures once { IfOk result (λ _. AreOnce (peer_pairs edition source.now)) }
    ensures value { IfOk result (λ kept. kept ≡ from_entries (filter is_kept (peer_pairs edition source.now))) }
    ensures err { IfErr result (λ e. e ≢ OutOfMemory → (fields source.now).fault ≡ None →
        AllByRecursion IsGoodPeer (peers_held edition source.now) → ¬ (AreOnce (peer_pairs edition source.now))) }
{
    match edition {
        Edition::First => Ok(KeptIndexes::new(alloc)),
        Edition::Second => {
            let peers = read_peers(alloc, source)?;
            keep(alloc, peers.as_slice())
        }
    }
}

// The folder of this device with these records.
fn restore(
    alloc: Global,
    me: DeviceId,
    entries: Vec<Announcement>,
    front: &Front,
) -> Result<PlainFolder, StateFault>
    ensures allowed { IfOk result (λ _. MayRestore me (map given entries.items) front.now.last) }
    ensures value { IfOk result (λ f. f ≡ restored_folder me (map given entries.items) front.now.last) }
    ensures err { IfErr result (λ e. e ≢ OutOfMemory → ¬ (MayRestore me (map given entries.items) front.now.last)) }
{
    match PlainFolder::restore(alloc, me, Items::from_vec(entries), front.last) {
        Ok(folder) => Ok(folder),
        Err(RestoreFault::BadRecords) => Err(StateFault::BadState(Problem::Records)),
        Err(RestoreFault::OutOfMemory) => Err(StateFault::OutOfMemory),
    }
}

// The folder of its bytes.
fn read_folder(
    alloc: Global,
    me: DeviceId,
    edition: Edition,
    source: &[u8],
) -> Result<StoredFolder, StateFault>
    ensures good { IfOk result (λ _. IsGoodFolder me edition source.now) }
    ensures value { IfOk result (λ f. f ≡ stored me (folder_told edition source.now)) }
    ensures err { IfErr result (λ e. e ≢ OutOfMemory → ¬ (IsGoodFolder me edition source.now)) }
{
    let front = read_message::<Front>(alloc, source)?;
    if front.index_id == 0 {
        return Err(StateFault::BadState(Problem::IndexId));
    }
    let entries = read_entries(alloc, source)?;
    let peers = read_kept(alloc, edition, source)?;
    let folder = restore(alloc, me, entries, &front)?;
    let Front { id, index_id, .. } = front;
    Ok(StoredFolder {
        id,
        index_id,
        folder,
        peers,
    })
}

// Whether one of the folders has the id.
fn has_id(folders: &[StoredFolder], id: &Text) -> bool
    ensures { result ≡ list_any (λ f. bytes_eq f.id id.now) folders.now }
{
    folders
        .iter()
        .any(|folder| folder.id.as_str() == id.as_str())
}

// The folders of a state's field 1, of which no two may have one id.
fn read_folders(
    alloc: Global,
    me: DeviceId,
    edition: Edition,
    body: &[u8],
) -> Result<Vec<StoredFolder>, StateFault>
    ensures ended { IfOk result (λ _. (fields body.now).fault ≡ None) }
    ensures good { IfOk result (λ _. AllByRecursion (IsGoodFolder me edition) (held 1 body.now)) }
    ensures once { IfOk result (λ folders. AllPairs (λ f g. f.id ≢ g.id) folders.items) }
    ensures value { IfOk result (λ folders. folders.items
        ≡ map (λ b. stored me (folder_told edition b)) (held 1 body.now)) }
    ensures err { IfErr result (λ e. e ≢ OutOfMemory → (fields body.now).fault ≡ None →
        AllByRecursion (IsGoodFolder me edition) (held 1 body.now) →
        ¬ (AllPairs (λ f g. f.id ≢ g.id) (map (λ b. stored me (folder_told edition b)) (held 1 body.now)))) }
    ensures memory { IfErr result (λ e. e ≡ OutOfMemory → held 1 body.now ≢ []) }
{
    let mut folders = Vec::new(alloc);
    let mut at = 0;
    while let Some((start, end)) = next_held(body, at, 1)? {
        let folder = read_folder(alloc, me, edition, &body[start..end])?;
        if has_id(folders.as_slice(), &folder.id) {
            return Err(StateFault::BadState(Problem::RepeatedFolder));
        }
        folders.push(folder)?;
        at = end;
    }
    Ok(folders)
}

// The version that the text's first line says, and what comes after it.
fn beginning(text: &[u8]) -> Option<(Edition, &[u8])>
    ensures none { IfNone result ((edition : Version) (body : List ℕ) → text.now ≢ line edition ++ body) }
    ensures some { IfSome result (λ p. text.now ≡ line p.0 ++ p.1.now) }
{
    if let Some(body) = text.strip_prefix(&FIRST_LINE) {
        return Some((Edition::First, body));
    }
    if let Some(body) = text.strip_prefix(&SECOND_LINE) {
        return Some((Edition::Second, body));
    }
    None
}

/// The state that the bytes of a state file, of version 1 or 2, mean to this device. The folders keep their order, and
/// none has an open pull. In a file of version 1 a peer is an unknown field; a peer with index id 0 is left out.
///
/// Fails with `BadState` exactly where the bytes mean no state: if the first line is another one, or there is none; what
/// follows is not a message; a device has not 32 bytes; the index id of a folder is 0; a folder's id repeats; the name
/// of a file is refused; [`PlainFolder::restore`] refuses a folder's records; or a peer repeats within a folder. Which of
/// them is told, where there are several, is not promised. Fails with `OutOfMemory` if allocation fails, and never where no
/// folder comes before the first fault.
///
/// O(n log n) for n bytes, and O(n) where the records of each folder are in order, as they are written; but O(k^2) for k
/// folders, or k peers of one folder. Entries are decoded one by one: beside the bytes and the records that are returned
/// only one entry is in memory at a time.
pub fn read_state(alloc: Global, me: DeviceId, text: &[u8]) -> Result<State, StateFault>
    ensures meaning { IfOk result (Means me text.now) }
    ensures refused { IfErr result (λ e. e ≢ OutOfMemory → (s : Stored) → ¬ (Means me text.now s)) }
    // Memory is only needed for a folder.
    ensures memory { IfErr result (λ e. e ≡ OutOfMemory → HasFolder text.now) }
{
    let Some((edition, body)) = beginning(text) else {
        return Err(StateFault::BadState(Problem::Beginning));
    };
    let folders = read_folders(alloc, me, edition, body)?;
    Ok(State {
        folders: Items::from_vec(folders),
    })
}
