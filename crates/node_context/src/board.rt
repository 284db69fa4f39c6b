//! What was told of folders and peers, for who asks how they are. What memory runs out for is left out.
use crate::doing::Doing;
use crate::event::{Event, Heard, PeerEvent, PullEvent, ScanEvent};
use crate::folder_line::push_failure;
use crate::peer_line::{SILENT, push_front, push_why};
use crate::tally::{Names, SkipTally, Sum, Tally};
use bep_messages::Text;
use node_status::Noted;
use std::alloc::{AllocError, Global};
use std::io::{self, Write};
use std::str;
use sync_names::SafeName;
use sync_record::DeviceId;

/// How many conflict copies of a folder are remembered.
const MOST_CONFLICTS: usize = 10;

/// How many names that can't be pulled are; further ones are counted.
const MOST_FAILED: usize = 100;

/// What was told of folders and peers.
#[derive(Drop)]
pub struct Board {
    alloc: Global,
    folders: Vec<FolderBoard>,
    peers: Vec<PeerBoard>,
    /// Why the state can't be written, if it can't.
    pub not_written: Option<String>,
    /// How many events were taken, but for looks.
    pub changes: u64,
}

/// What was told of a folder.
#[derive(Drop)]
pub struct FolderBoard {
    id: String,
    /// What it is doing.
    pub doing: Doing,
    /// The last conflict copies, the newest last.
    pub conflicts: Vec<Noted>,
    /// Names that could not be pulled.
    pub failed: Vec<Noted>,
    /// How many more there were.
    pub failed_more: u64,
    // Which names that are recorded are told by name, and what was left out and pulled that isn't told yet.
    recorded: Names,
    left_out: SkipTally,
    tally: Tally,
}

/// What is told of an event.
#[derive(Clone, Copy)]
pub(crate) enum Telling {
    /// Nothing.
    Nothing,
    /// A line.
    Line,
    /// How far something is, which begins with this or goes on.
    Far {
        /// Whether it begins.
        begins: bool,
    },
    /// How many names were pulled that were not told by name.
    Sum(Sum),
    /// How many names were left out that were not told by name.
    MoreSkipped(u64),
}

/// What was told of a peer.
#[derive(Drop)]
pub struct PeerBoard {
    device: DeviceId,
    /// Since when it is connected, or isn't, in seconds since 1970.
    pub since: Option<u64>,
    /// The name that it gave itself last.
    pub name: Option<String>,
    /// Its program, and the version of that.
    pub program: Option<String>,
    /// From where it was connected last.
    pub from: Option<String>,
    /// Why it isn't connected.
    pub why: Option<String>,
}

impl Board {
    /// Nothing was told. Does not allocate.
    pub(crate) fn new(alloc: Global) -> Board {
        Board {
            alloc,
            folders: Vec::new(alloc),
            peers: Vec::new(alloc),
            not_written: None,
            changes: 0,
        }
    }

    /// What was told of the folder with this id, if anything was.
    pub fn folder(&self, id: &str) -> Option<&FolderBoard> {
        self.folders.iter().find(|folder| folder.id.as_str() == id)
    }

    /// What was told of this peer, if anything was.
    pub fn peer(&self, device: DeviceId) -> Option<&PeerBoard> {
        self.peers.iter().find(|peer| peer.device == device)
    }

    /// The name that a device gave itself last, if it gave one.
    pub(crate) fn name_of(&self, device: DeviceId) -> Option<&str> {
        match self.peer(device) {
            Some(peer) => match &peer.name {
                Some(name) if !name.is_empty() => Some(name.as_str()),
                _ => None,
            },
            None => None,
        }
    }

    // Takes what happened in this second since 1970.
    pub(crate) fn take(&mut self, now: u64, event: &Event) -> io::Result<()> {
        let alloc = self.alloc;
        if !matches!(event, Event::Scan(_, ScanEvent::Looked)) {
            self.changes = self.changes.saturating_add(1);
        }
        match event {
            Event::NotKept(why) => {
                self.not_written = Some(String::from_str(
                    alloc,
                    why.unwrap_or("it can't be written"),
                )?);
            }
            Event::KeptAgain => self.not_written = None,
            Event::Peer(device, event) => {
                if let Some(peer) = self.peer_of(*device)? {
                    peer.take(alloc, now, event)?;
                }
            }
            Event::Scan(id, event) => {
                if let Some(folder) = self.folder_of(id)? {
                    folder.doing = folder.doing.after_scan(event, now);
                }
            }
            Event::Pull(id, event) => {
                if let Some(folder) = self.folder_of(id)? {
                    folder.doing = folder.doing.after_pull(event, now);
                    folder.take(alloc, now, event)?;
                }
            }
            Event::Begun(_)
            | Event::InputEnded
            | Event::NoSocket(_, _)
            | Event::NoPage(_, _)
            | Event::Ended
            | Event::OlderState => {}
        }
        Ok(())
    }

    /// What is told of an event of this second that was just taken, by name of each name that is pulled, recorded or left out if that `is_verbose`. Of what memory
    /// ran out for a line is written.
    pub(crate) fn telling(&mut self, now: u64, event: &Event, is_verbose: bool) -> Telling {
        match event {
            Event::Scan(id, event) => match self.folder_of(id) {
                Ok(Some(folder)) => folder.telling_scan(now, event, is_verbose),
                _ => Telling::Line,
            },
            Event::Pull(id, event) => match self.folder_of(id) {
                Ok(Some(folder)) => folder.telling_pull(now, event, is_verbose),
                _ => Telling::Line,
            },
            _ => Telling::Line,
        }
    }

    // What was told of the folder with this id; nothing yet, where it is a new one.
    fn folder_of(&mut self, id: &str) -> Result<Option<&mut FolderBoard>, AllocError> {
        let place = match self
            .folders
            .iter()
            .position(|folder| folder.id.as_str() == id)
        {
            Some(place) => place,
            None => {
                self.folders.push(FolderBoard::new(self.alloc, id)?)?;
                self.folders.len() - 1
            }
        };
        Ok(self.folders.get_mut(place))
    }

    // The same of a peer.
    fn peer_of(&mut self, device: DeviceId) -> Result<Option<&mut PeerBoard>, AllocError> {
        let place = match self.peers.iter().position(|peer| peer.device == device) {
            Some(place) => place,
            None => {
                self.peers.push(PeerBoard::new(device))?;
                self.peers.len() - 1
            }
        };
        Ok(self.peers.get_mut(place))
    }
}

impl FolderBoard {
    fn new(alloc: Global, id: &str) -> Result<FolderBoard, AllocError> {
        Ok(FolderBoard {
            id: String::from_str(alloc, id)?,
            doing: Doing::idle(),
            conflicts: Vec::new(alloc),
            failed: Vec::new(alloc),
            failed_more: 0,
            recorded: Names::none(),
            left_out: SkipTally::none(),
            tally: Tally::none(),
        })
    }

    fn telling_scan(&mut self, now: u64, event: &ScanEvent, is_verbose: bool) -> Telling {
        match event {
            ScanEvent::At(at, _, bytes) => Telling::Far {
                begins: *at == 0 && *bytes == 0,
            },
            ScanEvent::Over(_) | ScanEvent::Looked => {
                let (count, left_out) = self.left_out.settle();
                self.left_out = left_out;
                if count > 0 {
                    Telling::MoreSkipped(count)
                } else {
                    Telling::Nothing
                }
            }
            ScanEvent::Skipped(_, _) if is_verbose => Telling::Line,
            ScanEvent::Skipped(_, _) => {
                let (is_named, left_out) = self.left_out.take(now);
                self.left_out = left_out;
                line_if(is_named)
            }
            ScanEvent::Recorded(_) => {
                let (is_named, recorded) = self.recorded.take(now);
                self.recorded = recorded;
                line_if(is_verbose || is_named)
            }
            _ => Telling::Line,
        }
    }

    fn telling_pull(&mut self, now: u64, event: &PullEvent, is_verbose: bool) -> Telling {
        match event {
            PullEvent::Begun(_) if self.doing.pulled == 0 && self.doing.came == 0 => {
                Telling::Far { begins: true }
            }
            PullEvent::Begun(_) => Telling::Nothing,
            PullEvent::At(_) | PullEvent::Came(_) => Telling::Far { begins: false },
            PullEvent::Received(_, _) => line_if(is_verbose),
            PullEvent::Pulled(_, _) if is_verbose => Telling::Line,
            PullEvent::Pulled(_, change) => {
                let (is_named, tally) = self.tally.take(now, *change);
                self.tally = tally;
                line_if(is_named)
            }
            PullEvent::Over(needed) => {
                let (sum, tally) = self.tally.settle(now, *needed);
                self.tally = tally;
                match sum {
                    Some(sum) => Telling::Sum(sum),
                    None => Telling::Nothing,
                }
            }
            _ => Telling::Line,
        }
    }

    // Takes which names could not be pulled, which were after all, and which conflict copies were made.
    fn take(&mut self, alloc: Global, now: u64, event: &PullEvent) -> io::Result<()> {
        match event {
            PullEvent::Kept(name) => {
                if self.conflicts.len() >= MOST_CONFLICTS {
                    let _oldest = self.conflicts.remove(0);
                }
                self.conflicts.push(noted(alloc, now, name, b"")?)?;
            }
            PullEvent::Pulled(name, _) => self.forget(name),
            PullEvent::Over(needed) => {
                if *needed == 0 {
                    self.failed.clear();
                    self.failed_more = 0;
                }
            }
            PullEvent::Failed(name, _, _)
            | PullEvent::Refused(name, _)
            | PullEvent::Unsupported(name) => {
                let mut why = Vec::new(alloc);
                push_failure(&mut why, event)?;
                self.forget(name);
                if self.failed.len() < MOST_FAILED {
                    self.failed.push(noted(alloc, now, name, why.as_slice())?)?;
                } else {
                    self.failed_more = self.failed_more.saturating_add(1);
                }
            }
            PullEvent::Received(_, _)
            | PullEvent::At(_)
            | PullEvent::Came(_)
            | PullEvent::Begun(_)
            | PullEvent::HistoryFull
            | PullEvent::NoRoom => {}
        }
        Ok(())
    }

    // The name was pulled, or is told anew.
    fn forget(&mut self, name: &SafeName) {
        self.failed
            .retain(|failed| failed.name.as_str() != name.as_str());
    }
}

fn line_if(is_told: bool) -> Telling {
    if is_told {
        Telling::Line
    } else {
        Telling::Nothing
    }
}

fn noted(alloc: Global, now: u64, name: &SafeName, why: &[u8]) -> Result<Noted, AllocError> {
    Ok(Noted {
        name: String::from_str(alloc, name.as_str())?,
        when: Some(now),
        why: text_of(alloc, why)?,
    })
}

// What was written as a line, which is text.
fn text_of(alloc: Global, line: &[u8]) -> Result<String, AllocError> {
    String::from_str(alloc, str::from_utf8(line).unwrap_or(""))
}

impl PeerBoard {
    fn new(device: DeviceId) -> PeerBoard {
        PeerBoard {
            device,
            since: None,
            name: None,
            program: None,
            from: None,
            why: None,
        }
    }

    // Takes that it is connected, or why it isn't.
    fn take(&mut self, alloc: Global, now: u64, event: &PeerEvent) -> io::Result<()> {
        let mut why = Vec::new(alloc);
        match event {
            PeerEvent::Connected(heard) => return self.connect(alloc, now, heard),
            PeerEvent::Gone(stop) => {
                self.since = Some(now);
                push_why(&mut why, stop)?;
            }
            PeerEvent::Anew(reason) => {
                self.since = Some(now);
                push_front(&mut why, reason)?;
            }
            PeerEvent::Silent => {
                self.since = Some(now);
                why.extend_from_slice(SILENT)?;
            }
            PeerEvent::Unreached(endpoint, error, _) => write!(why, "{endpoint}: {error}")?,
            PeerEvent::NobodyDialled(endpoint, _) => {
                write!(
                    why,
                    "it has not connected; it must dial {endpoint}, or be dialled from here"
                )?;
            }
            PeerEvent::Listening(endpoint) => write!(why, "it has to connect to {endpoint}")?,
            PeerEvent::OwnIdentity => {
                why.extend_from_slice(b"who is there has the identity of this device")?;
            }
            PeerEvent::InTurn(_)
            | PeerEvent::Stranger(_)
            | PeerEvent::Unshared(_, _)
            | PeerEvent::UnsharedMore(_) => return Ok(()),
        }
        self.why = Some(text_of(alloc, why.as_slice())?);
        Ok(())
    }

    fn connect(&mut self, alloc: Global, now: u64, heard: &Heard) -> io::Result<()> {
        self.since = Some(now);
        self.why = None;
        self.name = Some(shown(alloc, &heard.name)?);
        let (program, version) = (shown(alloc, &heard.program)?, shown(alloc, &heard.version)?);
        self.program = Some(format!(in alloc; "{program} {version}")?);
        self.from = match heard.address {
            Some(address) => Some(format!(in alloc; "{address}")?),
            None => None,
        };
        Ok(())
    }
}

// What a peer says, as it is shown.
fn shown(alloc: Global, text: &Text) -> io::Result<String> {
    let mut line = Vec::new(alloc);
    push_front(&mut line, text.as_str())?;
    Ok(text_of(alloc, line.as_slice())?)
}
