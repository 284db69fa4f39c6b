//! A connection before it has the peer's place: its ClusterConfig is due.
ghost use Rattle.std.specs.Prelude.{◌≡◌};
ghost use Rattle.std.specs.List.{list_any};
ghost use Rattle.node_peer.specs.Lists.{has, has_both};

use crate::shares::first_index;
use bep_messages::{ClusterConfig, Folder};
use bep_session::{Event, Session};
use node_context::Host;
use peer_reader::ReaderStop;
use std::alloc::{AllocError, Global};
use std::io::{self, ErrorKind, Read, Write};
use std::mem::replace;
use std::net::{SocketAddr, TcpStream};
use std::time::{Clock, Duration};
use sync_record::DeviceId;
use sync_version::Moment;

/// How many seconds a connection is given until its ClusterConfig is there.
const GREETING_SECONDS: u64 = 10;

/// How many bytes of it are kept at most until then.
const MAX_GREETING_BYTES: usize = 4_194_304;

/// How many bytes are read at once at most.
const PIECE_BYTES: usize = 16_384;

/// A connection whose ClusterConfig came.
#[derive(Drop)]
pub(crate) struct Greeted {
    /// Its socket.
    pub(crate) stream: TcpStream,
    /// What was read of it: the peer's Hello, its ClusterConfig, and perhaps more.
    pub(crate) came: Vec<u8>,
    /// Whether the ClusterConfig has a folder with this device and the peer.
    pub(crate) lists_both: bool,
    /// The id of the peer's index that it has first; 0 where it has none.
    pub(crate) index_id: u64,
}

// What a guest's ClusterConfig says.
#[derive(Clone, Copy)]
struct Said {
    lists_both: bool,
    index_id: u64,
}

/// A connection that waits for the peer's ClusterConfig. This device's Hello was written.
#[derive(Drop)]
pub(crate) struct Guest {
    stream: TcpStream,
    came: Vec<u8>,
    session: Session,
    // When it came, in seconds since an arbitrary moment.
    since: Moment,
    /// From where, where the system says that.
    pub(crate) from: Option<SocketAddr>,
}

/// How far a guest is.
#[derive(Drop)]
pub(crate) enum Standing {
    /// Its ClusterConfig is due.
    Waits(Guest),
    /// It came.
    Greeted(Greeted),
    /// It ended, or can't be read.
    Gone(ReaderStop),
    /// It said nothing, or too little, for too long.
    Silent,
}

impl Guest {
    /// Writes the Hello of this device. Fails where it can't be written, or the socket is not as it should be.
    pub(crate) fn new<R: Host>(
        rt: &R,
        alloc: Global,
        stream: TcpStream,
        hello: &[u8],
    ) -> io::Result<Guest> {
        let mut line = &stream;
        line.write_all(hello)?;
        let since = seconds(rt, Moment::new(0).unwrap());
        let from = stream.peer_addr().ok();
        Ok(Guest {
            stream,
            from,
            came: Vec::new(alloc),
            session: Session::new(alloc, since),
            since,
        })
    }

    /// Reads once, for as long as the socket has a read wait.
    pub(crate) fn look<R: Host>(
        self,
        rt: &R,
        alloc: Global,
        me: DeviceId,
        peer: DeviceId,
    ) -> Standing {
        let mut guest = self;
        let now = seconds(rt, guest.since);
        match guest.read(alloc, now, me, peer) {
            Ok(None) => {}
            Ok(Some(said)) => {
                return Standing::Greeted(Greeted {
                    stream: guest.stream,
                    came: guest.came,
                    lists_both: said.lists_both,
                    index_id: said.index_id,
                });
            }
            Err(why) => return Standing::Gone(why),
        }
        if now.seconds().saturating_sub(guest.since.seconds()) >= GREETING_SECONDS
            || guest.came.len() > MAX_GREETING_BYTES
        {
            return Standing::Silent;
        }
        Standing::Waits(guest)
    }

    // What the ClusterConfig says, once it is there.
    fn read(
        &mut self,
        alloc: Global,
        now: Moment,
        me: DeviceId,
        peer: DeviceId,
    ) -> Result<Option<Said>, ReaderStop> {
        let mut piece = vec![in alloc; 0u8; PIECE_BYTES]?;
        let mut line = &self.stream;
        let count = match line.read(piece.as_mut_slice()) {
            Ok(0) => return Err(ReaderStop::InputEnded),
            Ok(count) => count,
            Err(error) => {
                return match error.kind() {
                    ErrorKind::Interrupted | ErrorKind::WouldBlock | ErrorKind::TimedOut => Ok(
                        None,
                    ),
                    kind => Err(ReaderStop::Read(kind)),
                };
            }
        };
        let piece = &piece.as_slice()[..count];
        self.came.extend_from_slice(piece)?;
        for event in self.session.feed(piece, now)? {
            match event {
                Event::PeerConfig(config) => {
                    return Ok(Some(Said {
                        lists_both: lists_both(&config, me, peer),
                        index_id: first_index(&config, peer),
                    }));
                }
                Event::PeerClosed(reason) => return Err(ReaderStop::Closed(reason)),
                Event::Ended(fault) => return Err(ReaderStop::Fault(fault)),
                _ => {}
            }
        }
        Ok(None)
    }
}

/// The seconds since an arbitrary moment, or the last ones where there is no clock.
pub(crate) fn seconds<R: Clock>(rt: &R, last: Moment) -> Moment {
    match rt.monotonic() {
        Ok(time) => Moment::new(time.as_secs()).unwrap_or(last),
        Err(_) => last,
    }
}

// Whether a folder of the ClusterConfig has both devices. O(n) for n devices.
fn lists_both(config: &ClusterConfig, me: DeviceId, peer: DeviceId) -> bool
    ensures { result ≡ list_any (has_both me peer) config.now.folders }
{
    config
        .folders
        .as_slice()
        .iter()
        .any(|folder| has_both(folder, me, peer))
}

fn has_both(folder: &Folder, me: DeviceId, peer: DeviceId) -> bool
    ensures { result ≡ has_both me peer folder.now }
{
    has(folder, me) && has(folder, peer)
}

/// Whether a folder of a ClusterConfig has the device.
pub(crate) fn has(folder: &Folder, device: DeviceId) -> bool
    ensures { result ≡ has device folder.now }
{
    folder
        .devices
        .as_slice()
        .iter()
        .any(|of| of.id.as_slice() == device.bytes().as_slice())
}
