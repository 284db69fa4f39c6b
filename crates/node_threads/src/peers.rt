//! The peers of a node, and how they are reached.
use node_context::{Connections, Endpoint, NodeFault};
use node_peer::{Listener, Reach, UnixSockets};
use std::alloc::{AllocError, AllocFailed, Global};
use std::io::{self, ErrorKind};
use std::net::{Net, TcpListener, TcpStream};
use std::sync::Wait;
use sync_record::DeviceId;

/// How a connection with a peer comes about.
#[derive(Debug, Drop)]
pub enum NodeAddress {
    /// This device makes it, there.
    Dial(Endpoint),
    /// The peer makes it, at this one of this device.
    Listen(Endpoint),
}

/// A folder that is shared with a peer.
#[derive(Clone, Copy, Debug)]
pub struct Share {
    /// Its place among the node's folders.
    pub folder: usize,
    /// The number of the peer's index of which there are records, or 0 for none.
    pub kept_index_id: u64,
}

/// A peer of a node.
#[derive(Drop)]
pub struct NodePeer {
    /// Its identity, which is another one than those of the other peers and of this device.
    pub device: DeviceId,
    /// How a connection with it comes about.
    pub address: NodeAddress,
    /// The folders that are shared with it.
    pub shares: Vec<Share>,
}

/// How the connections of each peer come about.
#[derive(Drop)]
pub struct Listeners {
    pub(crate) reaches: Vec<Reach>,
}

/// Why the peers can't be listened for.
#[derive(Clone, Copy, Debug)]
pub enum ListenFault {
    /// The address for the peer at this place can't be listened on.
    Address { peer: usize, error: io::Error },
    /// Memory ran out.
    OutOfMemory,
}

impl From<AllocError> for ListenFault {
    fn from(_failed: AllocError) -> ListenFault {
        ListenFault::OutOfMemory
    }
}

impl<T: Drop> From<AllocFailed<T>> for ListenFault {
    fn from(_failed: AllocFailed<T>) -> ListenFault {
        ListenFault::OutOfMemory
    }
}

/// Listens for each peer that makes the connection.
pub fn listen_all<R>(rt: &R, alloc: Global, peers: &[NodePeer]) -> Result<Listeners, ListenFault>
where
    R: Net<Listener = TcpListener, Stream = TcpStream> + UnixSockets,
{
    let mut reaches = Vec::with_capacity(alloc, peers.len())?;
    for (place, peer) in peers.iter().enumerate() {
        match reach_of(rt, alloc, &peer.address) {
            Ok(reach) => reaches.push(reach)?,
            Err(error) => return Err(listen_fault(place, error)),
        }
    }
    Ok(Listeners { reaches })
}

fn reach_of<R>(rt: &R, alloc: Global, address: &NodeAddress) -> io::Result<Reach>
where
    R: Net<Listener = TcpListener, Stream = TcpStream> + UnixSockets,
{
    match address {
        NodeAddress::Dial(endpoint) => Ok(Reach::Dial(endpoint.copy(alloc)?)),
        NodeAddress::Listen(endpoint) => {
            let copy = endpoint.copy(alloc)?;
            Ok(Reach::Listen(Listener::new(rt, endpoint)?, copy))
        }
    }
}

fn listen_fault(peer: usize, error: io::Error) -> ListenFault {
    match error.kind() {
        ErrorKind::OutOfMemory => ListenFault::OutOfMemory,
        _ => ListenFault::Address { peer, error },
    }
}

/// The socket that listens, if one does, is shut down once the node stops.
pub(crate) fn end_at_stop<R: Wait>(
    rt: &R,
    connections: &Connections,
    reach: &Reach,
) -> Result<(), NodeFault> {
    if let Reach::Listen(listener, _) = reach {
        let handle = listener.handle().map_err(no_address)?;
        connections.add_listener(rt, handle)?;
    }
    Ok(())
}

fn no_address(_error: io::Error) -> NodeFault {
    NodeFault::BadAddress
}
