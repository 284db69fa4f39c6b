//! The bytes of a state file, version 2, encoded: folders with their records and the peers' index ids.
ghost use Rattle.std.specs.Prelude.{◌≡◌, ◌≤◌, ◌<◌, ◌^◌, ◌+◌, ◌++◌, [], length, map, filter, pos, OnOk, OnErr, IfOk, IsOk, vec_capacity, vec_len};
ghost use Rattle.std.specs.List.{AllByRecursion};
ghost use Rattle.bep_messages.specs.Forms.{form, list_form, Fits, IsShort};
ghost use Rattle.bep_messages.specs.Writing.{Adds};
ghost use Rattle.bep_wire.specs.Written.{bytes_field};
ghost use Rattle.folder_core.specs.PlainRestores.{given};
ghost use Rattle.folder_core.specs.States.{IsFolder};
ghost use Rattle.sync_record.specs.Devices.{Identity};
ghost use Rattle.node_state.specs.Meaning.{IsReadable, Means, written_state};
ghost use Rattle.node_state.specs.Reading.{IsReadBack, IsWritable};
ghost use Rattle.node_state.specs.Parts.{entry_parts, peer_parts};
ghost use Rattle.node_state.specs.Peers.{is_kept, pair};
ghost use Rattle.node_state.specs.Tables.{entry_table, peer_table, folder_table, state_table};
ghost use Rattle.node_state.specs.Written.{entry_values, peer_values, folder_values, state_bytes, second_line};

use crate::entry::Entry;
use crate::kept::PeerIndex;
use crate::peer::Peer;
use crate::state::{State, StoredFolder};
use bep_messages::{ProtoMessage, ShortOctets, Writer, rows};
use bep_wire::MAX_FIELD_NUMBER;
use folder_core::{Announcement, FolderCore, PlainFolder};
use std::alloc::{AllocError, Global};
use std::mem;

/// The first line of a state file of version 2, with its line feed.
pub(crate) const SECOND_LINE: [u8; 13] = *b"bepd state 2\n";

// The message of an announcement.
fn entry_of(alloc: Global, announced: &Announcement) -> Result<Entry, AllocError>
    ensures value { IfOk result (λ entry. entry_parts entry ≡ entry_values (given announced.now)) }
    ensures back { IfOk result (λ _. IsReadBack (given announced.now)) }
{
    Ok(Entry {
        device: ShortOctets::from_slice(alloc, announced.device.bytes())?,
        file: announced.record.to_info()?,
    })
}

// Appends a message as a field of wire type 2, also an empty one.
fn element<M: ProtoMessage>(out: &mut Writer, number: u32, value: &M) -> Result<(), AllocError>
    requires low { 0 < number }
    requires high { number ≤ MAX_FIELD_NUMBER }
    ensures ok { OnOk result (Adds out.old (bytes_field number (form M.table (M.parts value.now))) out.new) }
    ensures fits { OnOk result
        (Fits M.table (M.parts value.now) × IsShort (form M.table (M.parts value.now))) }
    ensures kept { out.new.kept ≡ out.old.kept }
{
    let from = out.len();
    value.write(out)?;
    out.put_head(number, from)
}

// Appends an announcement as an element of a folder's field 4.
fn write_entry(out: &mut Writer, alloc: Global, announced: &Announcement) -> Result<(), AllocError>
    ensures ok { OnOk result (Adds out.old (bytes_field 4 (form entry_table (entry_values (given announced.now)))) out.new) }
    ensures fits { OnOk result (Fits entry_table (entry_values (given announced.now))
        × IsShort (form entry_table (entry_values (given announced.now)))) }
    ensures back { OnOk result (IsReadBack (given announced.now)) }
    ensures kept { out.new.kept ≡ out.old.kept }
{
    let entry = entry_of(alloc, announced)?;
    element(out, 4, &entry)
}

// Appends the announcements as a folder's field 4.
fn write_entries(
    out: &mut Writer,
    alloc: Global,
    entries: &[Announcement],
) -> Result<(), AllocError>
    ensures ok { OnOk result (Adds out.old (list_form 4 (form entry_table) (map (λ e. entry_values (given e)) entries.now)) out.new) }
    ensures fits { OnOk result (AllByRecursion (λ v. Fits entry_table v × IsShort (form entry_table v))
        (map (λ e. entry_values (given e)) entries.now)) }
    ensures back { OnOk result (AllByRecursion IsReadBack (map given entries.now)) }
    ensures kept { out.new.kept ≡ out.old.kept }
{
    for announced in entries {
        write_entry(out, alloc, announced)?;
    }
    Ok(())
}

// The message of a peer.
fn peer_of(alloc: Global, kept: &PeerIndex) -> Result<Peer, AllocError>
    ensures value { IfOk result (λ peer. peer_parts peer ≡ peer_values (pair kept.now)) }
    ensures back { IfOk result (λ _. length kept.now.device ≡ 32) }
{
    Ok(Peer {
        device: ShortOctets::from_slice(alloc, kept.device.bytes())?,
        index_id: kept.index_id,
    })
}

// Appends a peer as an element of a folder's field 5.
fn write_peer(out: &mut Writer, alloc: Global, kept: &PeerIndex) -> Result<(), AllocError>
    ensures ok { OnOk result (Adds out.old (bytes_field 5 (form peer_table (peer_values (pair kept.now)))) out.new) }
    ensures fits { OnOk result (Fits peer_table (peer_values (pair kept.now))
        × IsShort (form peer_table (peer_values (pair kept.now)))) }
    ensures back { OnOk result (length kept.now.device ≡ 32) }
    ensures kept { out.new.kept ≡ out.old.kept }
{
    let peer = peer_of(alloc, kept)?;
    element(out, 5, &peer)
}

// Appends the peers of which a number is kept as a folder's field 5.
fn write_peers(out: &mut Writer, alloc: Global, peers: &[PeerIndex]) -> Result<(), AllocError>
    ensures ok { OnOk result (Adds out.old (list_form 5 (form peer_table)
        (map peer_values (filter is_kept (map pair peers.now)))) out.new) }
    ensures fits { OnOk result (AllByRecursion (λ v. Fits peer_table v × IsShort (form peer_table v))
        (map peer_values (filter is_kept (map pair peers.now)))) }
    ensures back { OnOk result (AllByRecursion (λ p. length p.0 ≡ 32) (filter is_kept (map pair peers.now))) }
    ensures kept { out.new.kept ≡ out.old.kept }
{
    for peer in peers {
        if peer.index_id != 0 {
            write_peer(out, alloc, peer)?;
        }
    }
    Ok(())
}

// The last sequence that the folder's device gave, as it is written.
fn last_of(folder: &PlainFolder) -> i64
    ensures value { result ≡ pos folder.now.last }
    ensures fits { folder.now.last < 2 ^ 63 }
    ensures folder { IsFolder folder.now }
{
    folder.known(folder.me()) as i64
}

// Appends the fields of a folder.
fn write_fields(out: &mut Writer, alloc: Global, folder: &StoredFolder) -> Result<(), AllocError>
    ensures ok { OnOk result (Adds out.old (form folder_table (folder_values folder.now)) out.new) }
    ensures fits { OnOk result (Fits folder_table (folder_values folder.now)) }
    ensures back { OnOk result (IsWritable folder.now) }
    ensures kept { out.new.kept ≡ out.old.kept }
{
    rows::words(out, 1, &folder.id)?;
    rows::uint64(out, 2, &folder.index_id)?;
    rows::int64(out, 3, &last_of(&folder.folder))?;
    write_entries(out, alloc, folder.folder.records())?;
    write_peers(out, alloc, folder.peers.as_slice())?;
    Ok(())
}

// Appends a folder as an element of a state's field 1.
fn write_folder(out: &mut Writer, alloc: Global, folder: &StoredFolder) -> Result<(), AllocError>
    ensures ok { OnOk result (Adds out.old (bytes_field 1 (form folder_table (folder_values folder.now))) out.new) }
    ensures fits { OnOk result (Fits folder_table (folder_values folder.now)
        × IsShort (form folder_table (folder_values folder.now))) }
    ensures back { OnOk result (IsWritable folder.now) }
    ensures kept { out.new.kept ≡ out.old.kept }
{
    let from = out.len();
    write_fields(out, alloc, folder)?;
    out.put_head(1, from)
}

// Appends the folders as a state's field 1.
fn write_folders(
    out: &mut Writer,
    alloc: Global,
    folders: &[StoredFolder],
) -> Result<(), AllocError>
    ensures ok { OnOk result (Adds out.old (list_form 1 (form folder_table) (map folder_values folders.now)) out.new) }
    ensures fits { OnOk result (AllByRecursion (λ v. Fits folder_table v × IsShort (form folder_table v))
        (map folder_values folders.now)) }
    ensures back { OnOk result (AllByRecursion IsWritable folders.now) }
    ensures nothing { folders.now ≡ [] → IsOk result }
    ensures kept { out.new.kept ≡ out.old.kept }
{
    for folder in folders {
        write_folder(out, alloc, folder)?;
    }
    Ok(())
}

/// Appends the bytes of a state file, of version 2: each folder in the order given, its records by name and then by
/// device, its peers by rising identity. A peer of which no index id is kept is left out, and so are open pulls.
///
/// Fails only if allocation fails, and then the vector has the bytes that it had. O(n) for n bytes, each of which is moved
/// once for each of the messages that it is in; beside the vector only one record at a time is in memory twice.
pub fn write_state(state: &State, out: &mut Vec<u8>) -> Result<(), AllocError>
    ensures ok { OnOk result (out.new.items ≡ out.old.items ++ state_bytes state.now) }
    // Read again it is the state, without open pulls and without peers of which no index id is kept.
    ensures again { OnOk result ((me : Identity) → IsReadable me state.now →
        Means me (state_bytes state.now) (written_state state.now)) }
    ensures err { OnErr result (out.new.items ≡ out.old.items) }
    // Without a folder it fails only where room for the first line was missing.
    ensures room { state.now.folders ≡ [] →
        OnErr result (vec_capacity out.old < vec_len out.old + length second_line) }
{
    let alloc = *out.allocator();
    let len = out.len();
    out.extend_from_slice(&SECOND_LINE)?;
    let mut writer = Writer::new(mem::replace(out, Vec::new(alloc)));
    match write_folders(&mut writer, alloc, state.folders.as_slice()) {
        Ok(()) => {
            *out = writer.finish();
            Ok(())
        }
        Err(error) => {
            *out = writer.undo();
            out.truncate(len);
            Err(error)
        }
    }
}
