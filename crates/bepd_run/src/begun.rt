//! The beginning of a run: new folders get a marker, old temporary files are removed, and what it does is logged.
ghost use Rattle.std.specs.Prelude.{◌≡◌, ◌==◌, is_some, length};

use crate::failure::RunFailure;
use crate::nodes::NextNode;
use crate::recorded::is_known;
use crate::starts::Core;
use bep_messages::Text;
use file_dir::{Habits, LockRefusal};
use folder_core::FolderCore;
use folder_look::EntryKind;
use node_config::Config;
use node_context::{Event, Log, PeerEvent, ScanEvent};
use node_files::Stores;
use node_folder::FolderSettings;
use node_threads::{NodeAddress, StartFolder};
use std::alloc::{AllocError, Global};
use std::sync::Wait;
use std::time::Clock;

/// Tells by which configuration a run begins, where it listens, and which folders it keeps.
pub(crate) fn tell_begun<R: Clock + Wait>(rt: &R, log: &Log, config: &str, node: &NextNode) {
    log.tell(rt, &Event::Begun(config));
    for peer in node.peers.iter() {
        if let NodeAddress::Listen(endpoint) = &peer.address {
            let event = PeerEvent::Listening(endpoint);
            log.tell(rt, &Event::Peer(peer.device, event));
        }
    }
    for folder in node.folders.iter() {
        let counts = folder.core.counts();
        let names = counts.files.saturating_add(counts.directories);
        let FolderSettings { id, path, .. } = &folder.settings;
        let event = ScanEvent::Keeping(path.as_str(), names);
        log.tell(rt, &Event::Scan(id.as_str(), event));
    }
}

/// Says that a configuration has no peer, if it is so: another key for its peers is ignored, as each unknown one.
pub(crate) fn told_alone(config: &Config) -> Option<&'static str>
    ensures { is_some result ≡ (length config.now.peers == 0) }
{
    if config.peers.as_slice().is_empty() {
        Some(ALONE)
    } else {
        None
    }
}

const ALONE: &str = "no [[peer]] is in the configuration: its folders are kept alike with nobody";

/// Says how the files of each folder are kept. Fails only if out of memory.
pub(crate) fn keep_all<T: Stores>(stores: &T, config: &Config) -> Result<(), AllocError> {
    for folder in config.folders.as_slice() {
        let habits = Habits {
            keeps_versions: folder.trash_days > 0,
            mode: folder.mode,
        };
        stores.keep_by(folder.path.as_str(), habits)?;
    }
    Ok(())
}

/// Makes each folder ready, before anybody reads or writes it: one of which nothing was recorded yet gets its marker, and temporary files that an
/// earlier run left are removed. Fails with `FolderInUse` where another run has a folder, and with `NoFolder` where the path of such a new folder is no
/// directory; one of which something was recorded may be away. The others are taken for as long as the stores are kept.
pub(crate) fn make_ready<T: Stores>(
    alloc: Global,
    stores: &T,
    folders: &[StartFolder<Core>],
) -> Result<(), RunFailure> {
    for folder in folders {
        let settings = &folder.settings;
        let path = settings.path.as_str();
        let is_new = !is_known(&folder.core.counts());
        match stores.begin(alloc, path, is_new) {
            Err(LockRefusal::InUse) => {
                return Err(RunFailure::FolderInUse(Text::from_str(alloc, path)?));
            }
            Err(LockRefusal::OutOfMemory) if is_new => return Err(RunFailure::OutOfMemory),
            Err(LockRefusal::StoreFault) if is_new => {
                return Err(RunFailure::NoFolder(no_folder(alloc, stores, settings)?));
            }
            _ => {}
        }
    }
    Ok(())
}

// Which folder is none, and what to do.
fn no_folder<T: Stores>(
    alloc: Global,
    stores: &T,
    settings: &FolderSettings,
) -> Result<Text, AllocError> {
    let (id, path) = (settings.id.as_str(), settings.path.as_str());
    let why = match stores.facts_at(path) {
        Ok(None) => "nothing is there: make the directory, or mount its disk",
        Ok(Some(facts)) if facts.kind.is(EntryKind::Directory) =>
            "the directory can't be read or written: are its permissions right?",
        Ok(Some(_)) => "it is no directory, or a link that leads to none",
        Err(_) => "it can't be reached: are the permissions of what is above it right?",
    };
    Ok(Text::from_string(format!(in alloc; "folder {id}: {path}: {why}")?))
}
