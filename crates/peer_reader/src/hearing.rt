//! What one event of a connection comes to.
ghost use Rattle.std.specs.Prelude.{◌≡◌, ◌∷◌, [], if◌then◌else◌, true, All, IfErr, IfOk, OnErr, OnOk, Some, map, position};
ghost use Rattle.bep_session.specs.declared.event.Event.TheVariants.{Asked as AskedEvent, PeerConfig};
ghost use Rattle.folder_core.specs.declared.answer.Answer.TheVariants.{Applied};
ghost use Rattle.folder_core.specs.declared.change.Change.TheVariants.{Forget};
ghost use Rattle.peer_reader.specs.Counts.{one_change};
ghost use Rattle.peer_reader.specs.Effects.{announced_change, asked_effect, count_index, index_told, is_new_index, is_shared_as, is_told_in, place_of, told_by};
ghost use Rattle.peer_reader.specs.Hears.{AsksOne, HasHeard, IsApart, Stops, StopsOne, counted_forget, event_of, forget_asked, forget_due, heard_of, passed_of};

use crate::counts::ReaderCounts;
use crate::folder::ReaderFolder;
use crate::records::keep;
use crate::stop::ReaderStop;
use bep_messages::{ClusterConfig, FileInfo, Items, Request, Response, Text};
use bep_session::Event;
use file_store::{Gate, GatePlace};
use folder_calls::laws::changes_are_asked_in_order;
use folder_calls::{FolderCalls, HistoryFull};
use peer_conn::entry_of;
use std::alloc::Global;
use sync_record::DeviceId;

/// What an event gives to others than the folders.
#[derive(Debug, Drop)]
pub enum Passed {
    /// Nothing.
    Nothing,
    /// A ClusterConfig, for the indexer.
    Config(ClusterConfig),
    /// A Request, for the server, with the place of its folder among those that are shared; `None` if it is not shared.
    Asked(Option<usize>, Request),
    /// A Response to a Request of this device, for who asked.
    Answered(Response),
    /// A Response whose id, which is this one, was not open.
    Unknown(i32),
    /// An Index or an IndexUpdate was passed over: the peer's last ClusterConfig doesn't have the folder with this id, or this device doesn't share it.
    Unshared(Text),
}

/// What an Index or an IndexUpdate says of a folder.
#[derive(Drop)]
struct Announced {
    /// The folder's id.
    folder: Text,
    /// Records that the peer has.
    files: Items<FileInfo>,
    /// Whether these are all that it has, as in an Index; an IndexUpdate has more of them.
    is_whole: bool,
}

/// Makes the changes that an event is of the shared folders, in their order, and returns what it gives to others.
///
/// - A ClusterConfig: of each folder, in order, of which it tells another id of the peer's index than the kept one, or 0 or none,
///   the peer's records are forgotten; then the id is kept.
/// - An Index or an IndexUpdate of a folder that the last ClusterConfig has: the peer has these records, or these too. Records whose
///   names are not safe are skipped and counted; a message for another folder is counted, and the folder's id is passed on.
/// - Nothing else is a change.
///
/// Stops at a Close and at a fault; with `HistoryFull` where a folder refuses a change, and with `OutOfMemory`. Then the changes
/// before it were made. O(n) for n folders and what the message holds, which is moved.
pub fn hear<W: FolderCalls, G: Gate>(
    alloc: Global,
    gate: &G,
    peer: DeviceId,
    folders: &mut [ReaderFolder<W>],
    counts: &mut ReaderCounts,
    event: Event,
) -> Result<Passed, ReaderStop>
    requires { All (IsApart W.view peer) folders.old }
    ensures heard { IfOk result (λ given. HasHeard W.view W.folder peer event folders.old counts.old
        given folders.new counts.new) }
    ensures stopped { IfErr result (λ stop. Stops W.view W.folder peer event folders.old counts.old
        stop folders.new counts.new) }
{
    match event {
        Event::PeerConfig(config) => {
            hear_config(gate, peer, folders, counts, &config)?;
            Ok(Passed::Config(config))
        }
        Event::Full(index) => {
            let announced = Announced {
                folder: index.folder,
                files: index.files,
                is_whole: true,
            };
            hear_index(alloc, gate, peer, folders, counts, announced)
        }
        Event::More(update) => {
            let announced = Announced {
                folder: update.folder,
                files: update.files,
                is_whole: false,
            };
            hear_index(alloc, gate, peer, folders, counts, announced)
        }
        Event::Asked(request) => Ok(hear_request(folders, counts, request)),
        Event::Answered(response) => Ok(Passed::Answered(response)),
        Event::UnknownResponse(id) => Ok(Passed::Unknown(id)),
        Event::PeerHello(_) => Ok(Passed::Nothing),
        Event::Skipped(_) => Ok(Passed::Nothing),
        Event::PeerClosed(reason) => Err(ReaderStop::Closed(reason)),
        Event::Ended(fault) => Err(ReaderStop::Fault(fault)),
    }
}

// The folders after an Index or an IndexUpdate.
fn hear_index<W: FolderCalls, G: Gate>(
    alloc: Global,
    gate: &G,
    peer: DeviceId,
    folders: &mut [ReaderFolder<W>],
    counts: &mut ReaderCounts,
    announced: Announced,
) -> Result<Passed, ReaderStop>
    requires { All (IsApart W.view peer) folders.old }
    ensures heard { IfOk result (λ given. HasHeard W.view W.folder peer (event_of announced) folders.old counts.old
        given folders.new counts.new) }
    ensures stopped { IfErr result (λ stop. Stops W.view W.folder peer (event_of announced) folders.old counts.old
        stop folders.new counts.new) }
{
    changes_are_asked_in_order();
    let Some(place) = place_of(folders, announced.folder.as_str()) else {
        counts.count_unshared();
        return Ok(Passed::Unshared(announced.folder));
    };
    let is_whole = announced.is_whole;
    match hear_files(
        alloc,
        gate,
        peer,
        &mut folders[place],
        counts,
        announced.files,
        is_whole,
    ) {
        Ok(()) => Ok(Passed::Nothing),
        Err(why) => Err(why),
    }
}

// What a Request gives to the server.
fn hear_request<W>(
    folders: &[ReaderFolder<W>],
    counts: &mut ReaderCounts,
    request: Request,
) -> Passed
    ensures given { result ≡ passed_of (map heard_of folders.now) (AskedEvent request) }
    ensures counted { counts.new ≡ (asked_effect (map heard_of folders.now)
        (place_of request.folder (map heard_of folders.now))).count counts.old }
{
    match place_of(folders, request.folder.as_str()) {
        Some(place) => Passed::Asked(Some(place), request),
        None => {
            counts.count_unshared();
            Passed::Asked(None, request)
        }
    }
}

// The place of the first folder with this id that the peer's last ClusterConfig has. O(n).
fn place_of<W>(folders: &[ReaderFolder<W>], id: &str) -> Option<usize>
    ensures { result ≡ position (λ f. is_shared_as id.now (heard_of f)) folders.now }
{
    folders
        .iter()
        .position(|folder| folder.is_told && folder.id.as_str() == id)
}

// All folders after a ClusterConfig.
fn hear_config<W: FolderCalls, G: Gate>(
    gate: &G,
    peer: DeviceId,
    folders: &mut [ReaderFolder<W>],
    counts: &mut ReaderCounts,
    config: &ClusterConfig,
) -> Result<(), ReaderStop>
    requires { All (IsApart W.view peer) folders.old }
    ensures heard { OnOk result (HasHeard W.view W.folder peer (PeerConfig config.now) folders.old counts.old
        (Passed.Config config.now) folders.new counts.new) }
    ensures stopped { IfErr result (λ stop. Stops W.view W.folder peer (PeerConfig config.now) folders.old counts.old
        stop folders.new counts.new) }
{
    changes_are_asked_in_order();
    for i in 0..folders.len() {
        hear_config_of(gate, peer, &mut folders[i], counts, config)?;
    }
    Ok(())
}

// A folder after a ClusterConfig.
fn hear_config_of<W: FolderCalls, G: Gate>(
    gate: &G,
    peer: DeviceId,
    folder: &mut ReaderFolder<W>,
    counts: &mut ReaderCounts,
    config: &ClusterConfig,
) -> Result<(), ReaderStop>
    requires { IsApart W.view peer folder.old }
    ensures heard { OnOk result (heard_of folder.new ≡ told_by peer config.now (heard_of folder.old)) }
    ensures asks { OnOk result (AsksOne W.view W.folder (forget_asked peer config.now (heard_of folder.old))
        folder.old folder.new) }
    ensures counted { OnOk result (counts.new ≡ counted_forget peer config.now (heard_of folder.old) counts.old) }
    ensures stopped { IfErr result (StopsOne W.view W.folder (forget_due peer config.now (Some (heard_of folder.old)))
        folder.old folder.new) }
    ensures uncounted { OnErr result (counts.new ≡ counts.old) }
{
    let index_id = index_told(config, folder.id.as_str(), peer);
    let is_due = is_new_index(index_id, folder.kept_index_id);
    forget_if(gate, peer, folder, counts, is_due)?;
    folder.kept_index_id = index_id;
    folder.is_told = is_told_in(config, folder.id.as_str());
    Ok(())
}

// The id of the peer's index of a folder that its ClusterConfig tells, or 0.
fn index_told(config: &ClusterConfig, id: &str, peer: DeviceId) -> u64
    ensures { result ≡ index_told peer config.now id.now }
{
    match entry_of(config, id, peer) {
        Some(device) => device.index_id,
        None => 0,
    }
}

// Whether the peer's records are not those of the index with the kept id.
fn is_new_index(index_id: u64, kept: u64) -> bool
    ensures { result ≡ is_new_index index_id kept }
{
    index_id == 0 || index_id != kept
}

// Has a folder forget the peer's records, if that is due, and counts the change.
fn forget_if<W: FolderCalls, G: Gate>(
    gate: &G,
    peer: DeviceId,
    folder: &mut ReaderFolder<W>,
    counts: &mut ReaderCounts,
    is_due: bool,
) -> Result<(), ReaderStop>
    requires { IsApart W.view peer folder.old }
    ensures heard { heard_of folder.new ≡ heard_of folder.old }
    ensures asks { OnOk result (AsksOne W.view W.folder (if is_due then (Forget peer, Applied) ∷ [] else [])
        folder.old folder.new) }
    ensures counted { OnOk result (counts.new ≡ (if is_due then one_change counts.old else counts.old)) }
    ensures stopped { IfErr result (StopsOne W.view W.folder (λ change. (is_due ≡ true) × (change ≡ Forget peer))
        folder.old folder.new) }
    ensures uncounted { OnErr result (counts.new ≡ counts.old) }
{
    if !is_due {
        return Ok(());
    }
    forget(gate, peer, folder)?;
    counts.count_change();
    Ok(())
}

// Whether a ClusterConfig has a folder.
fn is_told_in(config: &ClusterConfig, id: &str) -> bool
    ensures { result ≡ is_told_in config.now id.now }
{
    config
        .folders
        .as_slice()
        .iter()
        .any(|folder| folder.id.as_str() == id)
}

// Has a folder forget the peer's records.
fn forget<W: FolderCalls, G: Gate>(
    gate: &G,
    peer: DeviceId,
    folder: &mut ReaderFolder<W>,
) -> Result<(), ReaderStop>
    requires { IsApart W.view peer folder.old }
    ensures heard { heard_of folder.new ≡ heard_of folder.old }
    ensures asks { OnOk result (AsksOne W.view W.folder ((Forget peer, Applied) ∷ []) folder.old folder.new) }
    ensures stopped { IfErr result (StopsOne W.view W.folder (λ change. change ≡ Forget peer) folder.old folder.new) }
{
    changes_are_asked_in_order();
    gate.at(GatePlace::FolderCall);
    match folder.calls.forget(peer)?.value {
        Ok(()) => Ok(()),
        Err(HistoryFull) => Err(ReaderStop::HistoryFull),
    }
}

// The peer has just these records of a folder, or these too.
fn hear_files<W: FolderCalls, G: Gate>(
    alloc: Global,
    gate: &G,
    peer: DeviceId,
    folder: &mut ReaderFolder<W>,
    counts: &mut ReaderCounts,
    files: Items<FileInfo>,
    is_whole: bool,
) -> Result<(), ReaderStop>
    requires { IsApart W.view peer folder.old }
    ensures heard { heard_of folder.new ≡ heard_of folder.old }
    ensures asks { OnOk result (AsksOne W.view W.folder ((announced_change is_whole peer files, Applied) ∷ []) folder.old folder.new) }
    ensures counted { OnOk result (counts.new ≡ count_index files counts.old) }
    ensures stopped { IfErr result (StopsOne W.view W.folder (λ change. change ≡ announced_change is_whole peer files)
        folder.old folder.new) }
    ensures uncounted { OnErr result (counts.new ≡ counts.old) }
{
    changes_are_asked_in_order();
    let kept = keep(alloc, files)?;
    gate.at(GatePlace::FolderCall);
    let reply = if is_whole {
        folder.calls.index_full(peer, kept.records)?
    } else {
        folder.calls.index_more(peer, kept.records)?
    };
    match reply.value {
        Ok(()) => {
            counts.count_change();
            counts.count_skipped(kept.skipped);
            Ok(())
        }
        Err(HistoryFull) => Err(ReaderStop::HistoryFull),
    }
}
