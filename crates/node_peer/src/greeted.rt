//! What a peer says first on a connection: who it is, and which folders it shares. It is told once it came.
use crate::guest::seconds;
use crate::shares::{
    first_index, gap_of, has_other_case, is_among, is_other_case, is_own_identity,
};
use bep_messages::{ClusterConfig, Hello, Text};
use bep_session::{Event as Said, Session};
use node_context::{Context, Event, Heard, PeerEvent, ShareGap};
use peer_conn::IndexerFolder;
use peer_reader::ReaderFolder;
use std::alloc::{AllocError, Global};
use std::io::{self, ErrorKind, Read};
use std::net::SocketAddr;
use std::sync::{Mutex, Wait};
use std::time::Clock;
use sync_record::DeviceId;
use sync_version::Moment;

/// How many folders of a peer are named that are not shared here; of further ones it is told how many there are.
const MOST_NAMED: u64 = 20;

/// How many numbers of indexes of devices with this one's identity are kept.
const MAX_DOUBLES: usize = 64;

/// Two devices that have a connection, and the folders that are shared here.
#[derive(Drop)]
pub(crate) struct Ends<'g> {
    pub(crate) me: DeviceId,
    pub(crate) peer: DeviceId,
    pub(crate) ids: Vec<Text>,
    /// The ids of this device's indexes of them.
    pub(crate) own: Vec<u64>,
    /// From where the peer is connected, where the system says that.
    pub(crate) address: Option<SocketAddr>,
    /// The ids of the indexes that devices with this one's identity have said that they have.
    pub(crate) doubles: &'g Mutex<Vec<u64>>,
}

/// The ids of folders.
pub(crate) fn ids_of<W>(
    alloc: Global,
    folders: &[ReaderFolder<W>],
) -> Result<Vec<Text>, AllocError> {
    let mut ids = Vec::with_capacity(alloc, folders.len())?;
    for folder in folders {
        ids.push(Text::from_str(alloc, folder.id.as_str())?)?;
    }
    Ok(ids)
}

/// The ids of this device's indexes of folders.
pub(crate) fn indexes_of<W>(
    alloc: Global,
    folders: &[IndexerFolder<W>],
) -> Result<Vec<u64>, AllocError> {
    let mut numbers = Vec::with_capacity(alloc, folders.len())?;
    for folder in folders {
        numbers.push(folder.index_id)?;
    }
    Ok(numbers)
}

/// A peer's stream, of which the front, up to its ClusterConfig, is listened to while it is read.
#[derive(Drop)]
pub(crate) struct ListenedTo<'g, 'x, R, G, I> {
    cx: &'g Context<'x, R, G>,
    ends: Ends<'g>,
    stream: I,
    // As long as the ClusterConfig is due: what came.
    session: Option<Session>,
    hello: Option<Hello>,
    since: Moment,
}

impl<'g, 'x, R: Clock + Wait, G, I> ListenedTo<'g, 'x, R, G, I> {
    /// A stream of which nothing was read.
    pub(crate) fn new(
        cx: &'g Context<'x, R, G>,
        ends: Ends<'g>,
        stream: I,
    ) -> ListenedTo<'g, 'x, R, G, I> {
        let since = seconds(cx.rt, Moment::new(0).unwrap());
        ListenedTo {
            cx,
            ends,
            stream,
            session: Some(Session::new(cx.alloc, since)),
            hello: None,
            since,
        }
    }

    // Listens to the next bytes. Where they are not as they should be, whoever reads them says so; but it fails where the peer has this device's identity, so that
    // nothing is sent to it as to the peer, or taken from it.
    fn listen(&mut self, piece: &[u8]) -> io::Result<()> {
        let Some(mut session) = self.session.take() else {
            return Ok(());
        };
        let Ok(said) = session.feed(piece, self.since) else {
            return Ok(());
        };
        for event in said {
            match event {
                Said::PeerHello(hello) => self.hello = Some(hello),
                Said::PeerConfig(config) => return self.take(&config),
                _ => {}
            }
        }
        self.session = Some(session);
        Ok(())
    }

    // Takes the peer's ClusterConfig.
    fn take(&mut self, config: &ClusterConfig) -> io::Result<()> {
        if self.is_double(config) {
            let event = PeerEvent::OwnIdentity;
            self.cx.tell(&Event::Peer(self.ends.peer, event));
            return Err(io::Error::from(ErrorKind::InvalidData));
        }
        self.tell(config);
        Ok(())
    }

    // Whether a device with this one's identity has said it, or one that was such before: by the ClusterConfig of this device it knows the peer's index then.
    fn is_double(&self, config: &ClusterConfig) -> bool {
        let Ends {
            me,
            peer,
            own,
            doubles,
            ..
        } = &self.ends;
        let said = first_index(config, *me);
        let mut known = doubles.lock(self.cx.rt);
        if is_own_identity(config, *me, *peer, own.as_slice()) {
            // (what isn't kept is only not known again)
            if known.len() < MAX_DOUBLES {
                let _ = known.push(said);
            }
            return true;
        }
        said != 0 && known.iter().any(|number| *number == said)
    }

    // Tells who the peer says that it is, and which folders are not kept alike with it.
    fn tell(&mut self, config: &ClusterConfig) {
        let (cx, peer) = (self.cx, self.ends.peer);
        if let Some(hello) = self.hello.take() {
            let heard = Heard {
                name: hello.device_name,
                program: hello.client_name,
                version: hello.client_version,
                address: self.ends.address,
            };
            cx.tell(&Event::Peer(peer, PeerEvent::Connected(&heard)));
        }
        for id in self.ends.ids.iter() {
            let gap = match gap_of(config, id.as_str(), self.ends.me, peer) {
                Some(ShareGap::NotThere) if has_other_case(cx.alloc, config, id.as_str()) => {
                    ShareGap::OtherCase
                }
                Some(gap) => gap,
                None => continue,
            };
            cx.tell(&Event::Peer(peer, PeerEvent::Unshared(id.as_str(), gap)));
        }
        let ids = self.ends.ids.as_slice();
        let mut count = 0u64;
        for folder in config.folders.as_slice() {
            let id = folder.id.as_str();
            // (of one that differs in capitals it was told above what to do)
            if is_among(ids, id) || is_other_case(cx.alloc, ids, id) {
                continue;
            }
            count = count.saturating_add(1);
            if count <= MOST_NAMED {
                let event = PeerEvent::Unshared(id, ShareGap::NotHere);
                cx.tell(&Event::Peer(peer, event));
            }
        }
        if count > MOST_NAMED {
            let event = PeerEvent::UnsharedMore(count - MOST_NAMED);
            cx.tell(&Event::Peer(peer, event));
        }
    }
}

impl<R: Clock + Wait, G, I: Read> Read for ListenedTo<'_, '_, R, G, I> {
    fn read(&mut self, buffer: &mut [u8]) -> io::Result<usize> {
        let count = self.stream.read(buffer)?;
        if self.session.is_some() {
            self.listen(&buffer[..count])?;
        }
        Ok(count)
    }
}
