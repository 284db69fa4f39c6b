//! The channels of a connection's workers: ClusterConfigs to the indexer, Requests to the server and the requester.
use crate::limits::MAX_QUEUED_REQUESTS;
use bep_messages::{ClusterConfig, Request};
use bep_session::MAX_ASKS;
use crossbeam_channel::{Receiver, Sender, bounded};
use peer_server::PeerRequest;
use std::alloc::{AllocError, Global};

/// The channels by which workers get what they work on.
#[derive(Drop)]
pub(crate) struct Channels {
    pub(crate) to_indexer: Sender<ClusterConfig>,
    pub(crate) configs: Receiver<ClusterConfig>,
    pub(crate) to_server: Sender<PeerRequest>,
    pub(crate) requests: Receiver<PeerRequest>,
    pub(crate) to_requester: Sender<Request>,
    pub(crate) asks: Receiver<Request>,
}

impl Channels {
    pub(crate) fn open(alloc: Global) -> Result<Channels, AllocError> {
        let (to_indexer, configs) = bounded::<ClusterConfig, Global>(alloc, 1)?;
        let (to_server, requests) = bounded::<PeerRequest, Global>(alloc, MAX_QUEUED_REQUESTS)?;
        let (to_requester, asks) = bounded::<Request, Global>(alloc, MAX_ASKS)?;
        Ok(Channels {
            to_indexer,
            configs,
            to_server,
            requests,
            to_requester,
            asks,
        })
    }
}
