//! The addresses of a configuration, read from text.
ghost use Rattle.std.specs.Prelude.{IfErr, IfOk};
ghost use Rattle.bepd_run.specs.Addresses.{IsEndpoint, IsFaultOf, IsReadAs, text_of};

use bep_messages::Text;
use node_config::{PeerAddress, read_endpoint};
use node_context::{Endpoint, NodeFault};
use node_threads::NodeAddress;
use std::alloc::Global;
use std::net::SocketAddr;

/// How a connection with a peer comes about. Fails with `BadAddress` where the text says of no socket where it is, and with `OutOfMemory` only for
/// a path. O(n).
pub(crate) fn address_of(alloc: Global, address: &PeerAddress) -> Result<NodeAddress, NodeFault>
    ensures read { IfOk result (IsReadAs address.now) }
    ensures fault { IfErr result (IsFaultOf (text_of address.now)) }
{
    match address {
        PeerAddress::Dial(text) => Ok(NodeAddress::Dial(endpoint_of(alloc, text.as_str())?)),
        PeerAddress::Listen(text) => Ok(NodeAddress::Listen(endpoint_of(alloc, text.as_str())?)),
    }
}

fn endpoint_of(alloc: Global, text: &str) -> Result<Endpoint, NodeFault>
    ensures read { IfOk result (IsEndpoint text.now) }
    ensures fault { IfErr result (IsFaultOf text.now) }
{
    match read_endpoint(text) {
        Some(node_config::Endpoint::Ip(address)) => Ok(Endpoint::Ip(SocketAddr::V4(address))),
        Some(node_config::Endpoint::Unix(path)) => {
            Ok(Endpoint::Unix(Text::from_str(alloc, path)?))
        }
        None => Err(NodeFault::BadAddress),
    }
}
