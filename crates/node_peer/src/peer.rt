//! A peer, which is dialled or listened for.
use crate::accept::{Listening, accept_each};
use crate::dial::dial_again;
use crate::socket::Listener;
use crate::told::hello_of;
use bep_frames::{WriteFault, write_hello};
use bep_messages::Hello;
use file_store::{FileStore, Gate};
use node_context::{Context, Endpoint, Host};
use peer_asks::AskBook;
use peer_conn::KeptCalls;
use peer_link::LinkFolders;
use peer_reader::ReaderFolder;
use std::alloc::Global;
use std::sync::Mutex;
use sync_record::DeviceId;

/// How a connection with a peer comes about.
#[derive(Drop)]
pub enum Reach {
    /// This device makes it, there.
    Dial(Endpoint),
    /// The peer makes it, at a socket of this device, which is there.
    Listen(Listener, Endpoint),
}

/// What stays the same for all connections of a peer.
#[derive(Clone, Copy)]
pub struct Peer<'x> {
    /// Its place among the peers.
    pub place: usize,
    /// Its identity.
    pub device: DeviceId,
    /// The name of this device.
    pub name: &'x str,
    /// The Requests to it.
    pub book: &'x AskBook,
}

/// A peer, how it is reached, and the folders that are shared with it, as the workers of a connection read and change them.
#[derive(Drop)]
pub struct PeerWorker<'x, S, W> {
    /// The peer.
    pub peer: Peer<'x>,
    /// How a connection with it comes about.
    pub reach: &'x Reach,
    /// The folders.
    pub folders: LinkFolders<S, W>,
}

/// Has connections with a peer, one after another, until the node stops. Returns the folders as these left them.
pub fn run_peer<R, S, W, G>(cx: &Context<R, G>, worker: PeerWorker<S, W>) -> LinkFolders<S, W>
where
    R: Host,
    S: FileStore + Drop + Send,
    W: KeptCalls + Drop + Send,
    G: Gate + Sync,
{
    let PeerWorker {
        peer,
        reach,
        folders,
    } = worker;
    let Ok(contact) = Contact::of(cx.alloc, &peer, folders.read.as_slice()) else {
        return folders;
    };
    match reach {
        Reach::Dial(endpoint) => dial_again(cx, &contact, endpoint, folders),
        Reach::Listen(listener, endpoint) => {
            let listening = Listening { listener, endpoint };
            accept_each(cx, &contact, &listening, folders)
        }
    }
}

/// A peer, and what connections with it begin with.
#[derive(Drop)]
pub(crate) struct Contact<'x> {
    pub(crate) peer: &'x Peer<'x>,
    /// This device.
    pub(crate) me: DeviceId,
    /// The Hello of this device, and its frame.
    pub(crate) hello: Hello,
    pub(crate) frame: Vec<u8>,
    /// The ids of the indexes that devices with this one's identity have said that they have.
    pub(crate) doubles: Mutex<Vec<u64>>,
}

impl<'x> Contact<'x> {
    // Fails only if out of memory.
    fn of<W: KeptCalls>(
        alloc: Global,
        peer: &'x Peer<'x>,
        folders: &[ReaderFolder<W>],
    ) -> Result<Contact<'x>, WriteFault> {
        let me = match folders.first() {
            Some(folder) => folder.calls.me(),
            None => peer.device,
        };
        let hello = hello_of(alloc, peer.name)?;
        let mut frame = Vec::new(alloc);
        write_hello(&hello, &mut frame)?;
        Ok(Contact {
            peer,
            me,
            hello,
            frame,
            doubles: Mutex::new(Vec::new(alloc)),
        })
    }
}
