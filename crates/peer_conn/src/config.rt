//! The ClusterConfigs of both devices.
ghost use Rattle.std.specs.Prelude.{◌≡◌, IfOk, option_copied};
ghost use Rattle.peer_conn.specs.Configs.{config_of, entry_in, device_told, entry_in, folder_in, folder_told, last_device, start_in};

use bep_messages::{ClusterConfig, Device, Folder, Items, Octets, Text};
use std::alloc::{AllocError, Global};
use sync_record::DeviceId;

/// Compression `NEVER`.
const NEVER: i32 = 1;

/// What the peer is told of a folder that is shared with it.
#[derive(Clone, Copy, Debug)]
pub struct FolderTold<'a> {
    /// The folder's id.
    pub id: &'a str,
    /// The number of this device's index of the folder.
    pub index_id: u64,
    /// The greatest sequence of this device's records.
    pub sequence: u64,
    /// The number of the peer's index of which this device has records, or 0 for none.
    pub peer_index_id: u64,
    /// The greatest sequence of the peer's records that this device has.
    pub peer_sequence: u64,
}

/// The ClusterConfig of this device for a peer (Block Exchange Protocol v1, "Cluster Config"): of each folder, in their order, its id and
/// two devices, this one with its name and then the peer, each with the number of its index and the greatest sequence of it that this
/// device has. Compression is `NEVER`.
///
/// Fails only if out of memory. O(n) for n folders and the bytes of their ids.
pub fn cluster_config(
    alloc: Global,
    me: DeviceId,
    name: &str,
    peer: DeviceId,
    folders: &[FolderTold],
) -> Result<ClusterConfig, AllocError>
    ensures { IfOk result (λ config. config ≡ config_of me name.now peer folders.now) }
{
    let mut told = Vec::with_capacity(alloc, folders.len())?;
    for folder in folders {
        told.push(told_folder(alloc, me, name, peer, folder)?)?;
    }
    Ok(ClusterConfig {
        folders: Items::from_vec(told),
    })
}

fn told_folder(
    alloc: Global,
    me: DeviceId,
    name: &str,
    peer: DeviceId,
    folder: &FolderTold,
) -> Result<Folder, AllocError>
    ensures { IfOk result (λ told. told ≡ folder_told me name.now peer folder.now) }
{
    let mut devices = Items::new(alloc);
    devices.push(told_device(alloc, me, name, folder.sequence, folder.index_id)?)?;
    devices.push(told_device(alloc, peer, "", folder.peer_sequence, folder.peer_index_id)?)?;
    Ok(Folder {
        id: Text::from_str(alloc, folder.id)?,
        label: Text::new(alloc),
        read_only: false,
        ignore_permissions: false,
        ignore_delete: false,
        disable_temp_indexes: false,
        paused: false,
        devices,
    })
}

fn told_device(
    alloc: Global,
    id: DeviceId,
    name: &str,
    sequence: u64,
    index_id: u64,
) -> Result<Device, AllocError>
    ensures { IfOk result (λ told. told ≡ device_told id name.now sequence index_id) }
{
    Ok(Device {
        id: Octets::from_slice(alloc, id.bytes().as_slice())?,
        name: Text::from_str(alloc, name)?,
        addresses: Items::new(alloc),
        compression: NEVER,
        cert_name: Text::new(alloc),
        max_sequence: i64::try_from(sequence).unwrap_or(i64::MAX),
        introducer: false,
        index_id,
        skip_introduction_removals: false,
    })
}

/// What a ClusterConfig says of a device in a folder, if it has the folder, and the device in it. Where it repeats the folder, the
/// last one counts, and of a device that is repeated in it the last entry. Does not allocate. O(n).
pub fn entry_of<'a>(config: &'a ClusterConfig, folder: &str, device: DeviceId) -> Option<&'a Device>
    ensures { option_copied result ≡ entry_in device (folder_in folder.now config.now) }
{
    device_in(folder_of(config, folder)?, device)
}

/// What a ClusterConfig says of the folder with this id, if it has it. Where it repeats the folder, the last one counts. Does not allocate. O(n).
pub fn folder_of<'a>(config: &'a ClusterConfig, id: &str) -> Option<&'a Folder>
    ensures { option_copied result ≡ folder_in id.now config.now }
{
    let folders = config.folders.as_slice();
    folders.iter().rev().find(|folder| folder.id.as_str() == id)
}

/// The last entry of the device.
fn device_in<'a>(folder: &'a Folder, id: DeviceId) -> Option<&'a Device>
    ensures { option_copied result ≡ last_device id folder.now.devices }
{
    let devices = folder.devices.as_slice();
    devices
        .iter()
        .rev()
        .find(|device| device.id.as_slice() == id.bytes().as_slice())
}

/// From which sequence on a peer is to be told this device's records of a folder: what the peer says that it has, if its ClusterConfig
/// names this index of this device and a sequence from 1 to the last one; otherwise `None`, and all are to be told. Does not
/// allocate. O(n) for n folders and devices of the ClusterConfig.
pub fn start_of(
    config: &ClusterConfig,
    folder: &str,
    me: DeviceId,
    index_id: u64,
    last: u64,
) -> Option<i64>
    ensures { result ≡ start_in config.now folder.now me index_id last }
{
    let entry = entry_of(config, folder, me)?;
    if entry.index_id != index_id {
        return None;
    }
    match u64::try_from(entry.max_sequence) {
        Ok(sequence) if 1 <= sequence && sequence <= last => Some(entry.max_sequence),
        _ => None,
    }
}
