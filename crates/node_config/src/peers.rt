//! The peers of a document.
ghost use Rattle.std.specs.Prelude.{◌≡◌, ◌==◌, [], bytes_eq, position};
ghost use Rattle.sync_record.specs.Devices.{short_id as short_id_of};
ghost use Rattle.std.specs.List.{list_any};
ghost use Rattle.node_config.specs.Folders.{has_id};
ghost use Rattle.toml.specs.View.{items_view, table_view, view};
ghost use Rattle.node_config.specs.Peers.{address_at, checked_device, checked_listen, is_short_id_taken, is_taken, listens_at, peer_of, peers_after, peers_at, place_of, places_after, places_at};
ghost use Rattle.node_config.specs.Values.{Finds, Reads};

use crate::address::is_same_socket;
use crate::config::{FolderConfig, PeerAddress, PeerConfig};
use crate::fault::ConfigFault;
use crate::key::{Key, Problem, TablePlace};
use crate::values::{array_at, device_at, table_of, text_of, value_at};
use bep_messages::{Items, Text};
use std::alloc::Global;
use sync_record::DeviceId;
use toml::{Table, Value};

/// The peers of a document.
pub(crate) fn read_peers(
    alloc: Global,
    me: DeviceId,
    folders: &[FolderConfig],
    document: &Table,
) -> Result<Items<PeerConfig>, ConfigFault>
    ensures { Reads (peers_at me folders.now (table_view document.now)) result }
{
    match value_at(document, Key::Peer) {
        None => Ok(Items::new(alloc)),
        Some(Value::Array(values)) => read_each(alloc, me, folders, values),
        Some(_) => Err(ConfigFault::BadKey {
            place: TablePlace::Node,
            key: Key::Peer,
            problem: Problem::NotTables,
        }),
    }
}

/// The peers of these tables.
fn read_each(
    alloc: Global,
    me: DeviceId,
    folders: &[FolderConfig],
    values: &[Value],
) -> Result<Items<PeerConfig>, ConfigFault>
    ensures { Reads (peers_after me folders.now [] (items_view values.now)) result }
{
    let mut peers = Items::new(alloc);
    for value in values {
        let peer = read_peer(alloc, me, folders, peers.as_slice(), value)?;
        peers.push(peer)?;
    }
    Ok(peers)
}

/// The peer of a table, after the earlier ones.
fn read_peer(
    alloc: Global,
    me: DeviceId,
    folders: &[FolderConfig],
    earlier: &[PeerConfig],
    value: &Value,
) -> Result<PeerConfig, ConfigFault>
    ensures { Reads (peer_of me folders.now earlier.now (view value.now)) result }
{
    let table = table_of(value, Key::Peer)?;
    let place = TablePlace::Peer(earlier.len() + 1);
    let device = checked_device(me, earlier, place, device_at(table, place)?)?;
    let folders = read_places(alloc, folders, table, place)?;
    let address = read_address(alloc, earlier, table, place)?;
    Ok(PeerConfig {
        device,
        folders,
        address,
    })
}

/// An identity that differs from that of this device and of each earlier peer, also in its first eight bytes.
fn checked_device(
    me: DeviceId,
    earlier: &[PeerConfig],
    place: TablePlace,
    device: DeviceId,
) -> Result<DeviceId, ConfigFault>
    ensures { result ≡ checked_device me earlier.now place device }
{
    if is_taken(me, earlier, device) {
        return Err(ConfigFault::BadKey {
            place,
            key: Key::Device,
            problem: Problem::SameDevice,
        });
    }
    if is_short_id_taken(me, earlier, device.short_id()) {
        return Err(ConfigFault::BadKey {
            place,
            key: Key::Device,
            problem: Problem::SameShortId,
        });
    }
    Ok(device)
}

/// Whether this device or one of the peers has this identity.
fn is_taken(me: DeviceId, peers: &[PeerConfig], device: DeviceId) -> bool
    ensures { result ≡ is_taken me peers.now device }
{
    me == device || has_device(peers, device)
}

fn has_device(peers: &[PeerConfig], device: DeviceId) -> bool
    ensures { result ≡ list_any (λ peer. bytes_eq peer.device device) peers.now }
{
    peers.iter().any(|peer| peer.device == device)
}

/// Whether the identity of this device or of one of the peers has these first eight bytes.
fn is_short_id_taken(me: DeviceId, peers: &[PeerConfig], short_id: u64) -> bool
    ensures { result ≡ is_short_id_taken me peers.now short_id }
{
    me.short_id() == short_id || has_short_id(peers, short_id)
}

fn has_short_id(peers: &[PeerConfig], short_id: u64) -> bool
    ensures { result ≡ list_any (λ peer. short_id_of peer.device == short_id) peers.now }
{
    peers.iter().any(|peer| peer.device.short_id() == short_id)
}

/// The places of the folders that a peer names.
fn read_places(
    alloc: Global,
    folders: &[FolderConfig],
    table: &Table,
    place: TablePlace,
) -> Result<Items<usize>, ConfigFault>
    ensures { Reads (places_at folders.now (table_view table.now) place) result }
{
    read_each_place(alloc, folders, place, array_at(table, place, Key::Folders)?)
}

/// The places of the folders with these ids.
fn read_each_place(
    alloc: Global,
    folders: &[FolderConfig],
    place: TablePlace,
    values: &[Value],
) -> Result<Items<usize>, ConfigFault>
    ensures { Reads (places_after folders.now place [] (items_view values.now)) result }
{
    let mut places = Items::new(alloc);
    for value in values {
        places.push(place_of(folders, place, places.as_slice().len() + 1, value)?)?;
    }
    Ok(places)
}

/// The place of the folder with this id, which is the value of this number in its array.
fn place_of(
    folders: &[FolderConfig],
    place: TablePlace,
    entry: usize,
    value: &Value,
) -> Result<usize, ConfigFault>
    ensures { result ≡ place_of folders.now place entry (view value.now) }
{
    let Some(id) = value.as_str() else {
        return Err(ConfigFault::BadKey {
            place,
            key: Key::Folders,
            problem: Problem::NotStrings,
        });
    };
    match position_of(folders, id) {
        Some(index) => Ok(index),
        None => Err(ConfigFault::BadKey {
            place,
            key: Key::Folders,
            problem: Problem::UnknownFolder { entry },
        }),
    }
}

/// The place of the folder with this id.
fn position_of(folders: &[FolderConfig], id: &str) -> Option<usize>
    ensures { result ≡ position (has_id id.now) folders.now }
{
    folders.iter().position(|folder| folder.id.as_str() == id)
}

/// The address of `dial` or of `listen`, of which one is there.
fn read_address(
    alloc: Global,
    earlier: &[PeerConfig],
    table: &Table,
    place: TablePlace,
) -> Result<PeerAddress, ConfigFault>
    ensures { Reads (address_at earlier.now (table_view table.now) place) result }
{
    match (value_at(table, Key::Dial), value_at(table, Key::Listen)) {
        (Some(dial), None) => {
            let text = text_of(dial, place, Key::Dial)?;
            Ok(PeerAddress::Dial(Text::from_str(alloc, text)?))
        }
        (None, Some(listen)) => {
            let text = text_of(listen, place, Key::Listen)?;
            read_listen(alloc, earlier, place, text)
        }
        (Some(_), Some(_)) => Err(ConfigFault::BadKey {
            place,
            key: Key::Dial,
            problem: Problem::BothAddresses,
        }),
        (None, None) => Err(ConfigFault::BadKey {
            place,
            key: Key::Dial,
            problem: Problem::NoAddress,
        }),
    }
}

/// An address to listen at, which means another socket than that for each earlier peer.
fn read_listen(
    alloc: Global,
    earlier: &[PeerConfig],
    place: TablePlace,
    text: &str,
) -> Result<PeerAddress, ConfigFault>
    ensures { Reads (checked_listen earlier.now place text.now) result }
{
    if is_listened_at(earlier, text) {
        return Err(ConfigFault::BadKey {
            place,
            key: Key::Listen,
            problem: Problem::Repeats,
        });
    }
    Ok(PeerAddress::Listen(Text::from_str(alloc, text)?))
}

/// Whether a peer is listened for at the socket that this text means.
fn listens_at(text: &str, address: &PeerAddress) -> bool
    ensures { result ≡ listens_at text.now address.now }
{
    match address {
        PeerAddress::Dial(_) => false,
        PeerAddress::Listen(listened) => is_same_socket(listened.as_str(), text),
    }
}

/// Whether one of the peers is.
fn is_listened_at(peers: &[PeerConfig], text: &str) -> bool
    ensures { result ≡ list_any (λ peer. listens_at text.now peer.address) peers.now }
{
    peers.iter().any(|peer| listens_at(text, &peer.address))
}
