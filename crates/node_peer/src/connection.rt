//! A connection, from its socket to its end.
use crate::greeted::{Ends, ListenedTo, ids_of, indexes_of};
use crate::peer::Contact;
use crate::told::own_config;
use file_store::{FileStore, Gate};
use node_context::{ConnectionId, Context, Event, Host, PeerEvent};
use peer_conn::KeptCalls;
use peer_link::{Greeting, Line, LinkEnd, LinkFolders, Streams, run_link};
use peer_reader::{ReaderStop, are_apart};
use std::io::{self, Read, Write};
use std::net::{Shutdown, TcpStream};
use std::time::Duration;

/// A socket as a line.
#[derive(Drop)]
struct Socket<'a> {
    stream: &'a TcpStream,
}

/// A socket of which the Hello was written.
#[derive(Drop)]
struct AfterHello<'a> {
    // How many bytes that are still to be written were.
    written: usize,
    stream: &'a TcpStream,
}

impl Line for Socket<'_> {
    fn hang_up(&self) {
        let _ = self.stream.shutdown(Shutdown::Both);
    }
}

impl Write for AfterHello<'_> {
    fn write(&mut self, bytes: &[u8]) -> io::Result<usize> {
        if self.written > 0 {
            let count = self.written.min(bytes.len());
            self.written -= count;
            return Ok(count);
        }
        self.stream.write(bytes)
    }

    fn flush(&mut self) -> io::Result<()> {
        self.stream.flush()
    }
}

/// A connection that is the peer's.
#[derive(Drop)]
pub(crate) struct Begun {
    /// Its socket.
    pub(crate) stream: TcpStream,
    /// Which one it is.
    pub(crate) id: ConnectionId,
    /// What was read of it.
    pub(crate) came: Vec<u8>,
    /// How many bytes of this device's Hello were written.
    pub(crate) written: usize,
}

/// Runs a connection that is the peer's, until it ends. Returns the folders as it left them, and whether another connection is to begin at once.
pub(crate) fn run_connection<R, S, W, G>(
    cx: &Context<R, G>,
    contact: &Contact,
    folders: LinkFolders<S, W>,
    begun: Begun,
) -> (LinkFolders<S, W>, bool)
where
    R: Host,
    S: FileStore + Drop + Send,
    W: KeptCalls + Drop + Send,
    G: Gate + Sync,
{
    let (folders, is_anew) = link(cx, contact, folders, &begun);
    let _ = begun.stream.shutdown(Shutdown::Both);
    cx.connections.end(cx.rt, contact.peer.place, begun.id);
    (folders, is_anew)
}

// Has the workers of the connection run, and tells why they ended.
fn link<R, S, W, G>(
    cx: &Context<R, G>,
    contact: &Contact,
    folders: LinkFolders<S, W>,
    begun: &Begun,
) -> (LinkFolders<S, W>, bool)
where
    R: Host,
    S: FileStore + Drop + Send,
    W: KeptCalls + Drop + Send,
    G: Gate + Sync,
{
    let peer = &contact.peer;
    let mut folders = folders;
    let Ok(config) = own_config(cx.alloc, peer.device, peer.name, &mut folders) else {
        return (folders, false);
    };
    if !are_apart(folders.read.as_slice(), peer.device) {
        return (folders, false);
    }
    let Ok(ids) = ids_of(cx.alloc, folders.read.as_slice()) else {
        return (folders, false);
    };
    let Ok(own) = indexes_of(cx.alloc, folders.indexed.as_slice()) else {
        return (folders, false);
    };
    let stream = &begun.stream;
    let ends = Ends {
        me: contact.me,
        peer: peer.device,
        ids,
        own,
        address: stream.peer_addr().ok(),
        doubles: &contact.doubles,
    };
    // (so that the reader looks at the clock each second)
    let _ = stream.set_read_timeout(Some(Duration::from_secs(1)));
    let _ = stream.set_nodelay(true);
    let line = Socket { stream };
    let ended = run_link(
        cx.rt,
        cx.alloc,
        Greeting {
            peer: peer.device,
            hello: &contact.hello,
            config,
        },
        folders,
        cx.gate,
        peer.book,
        Streams {
            reader: ListenedTo::new(cx, ends, begun.came.as_slice().chain(stream)),
            writer: AfterHello {
                written: begun.written,
                stream,
            },
            line: &line,
        },
    );
    match ended {
        Ok(
            LinkEnd {
                reader,
                told,
                folders,
                ..
            },
        ) => {
            let mut folders = folders;
            told.forget_lost(folders.read.as_mut_slice());
            match told.anew() {
                Some(why) => cx.tell(&Event::Peer(peer.device, PeerEvent::Anew(why.as_str()))),
                None => cx.tell(&Event::Peer(peer.device, PeerEvent::Gone(&reader.why))),
            }
            (folders, told.anew().is_some())
        }
        Err(folders) => {
            let event = PeerEvent::Gone(&ReaderStop::OutOfMemory);
            cx.tell(&Event::Peer(peer.device, event));
            (folders, false)
        }
    }
}
