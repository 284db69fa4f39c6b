//! The sockets of a node's connections, and whether it stops, alone or with the run.
use std::alloc::{AllocError, Global};
use std::net::{Shutdown, TcpStream};
use std::sync::{Condvar, Mutex, Wait};
use std::time::{Clock, Duration};

/// Which of its connections one of a peer is. None has that of another one.
#[derive(Clone, Copy, Debug, PartialEq, Eq)]
pub struct ConnectionId(u64);

/// The connections that are up, one of a peer at most, and whether the node stops, for all its threads.
#[derive(Drop)]
pub struct Connections {
    slots: Mutex<Slots>,
    // Notified when the node stops.
    stopped: Condvar,
}

// What stands under the lock.
#[derive(Drop)]
struct Slots {
    is_stopping: bool,
    // Whether the run ends, and so the node stops.
    is_quitting: bool,
    // By the peer's place.
    streams: Vec<Option<Up>>,
    // How many there were.
    count: u64,
    // The sockets that listen.
    listeners: Vec<TcpStream>,
}

// A connection that is up.
#[derive(Drop)]
struct Up {
    id: ConnectionId,
    stream: TcpStream,
}

impl Connections {
    /// None is up, for so many peers. Fails only if out of memory.
    pub fn new(alloc: Global, peers: usize) -> Result<Connections, AllocError> {
        let mut streams = Vec::with_capacity(alloc, peers)?;
        for _ in 0..peers {
            streams.push(None)?;
        }
        Ok(Connections {
            slots: Mutex::new(Slots {
                is_stopping: false,
                is_quitting: false,
                streams,
                count: 0,
                listeners: Vec::new(alloc),
            }),
            stopped: Condvar::new(),
        })
    }

    /// A socket that is shut down once the node stops. Fails only if out of memory.
    pub fn add_listener<R: Wait>(&self, rt: &R, listener: TcpStream) -> Result<(), AllocError> {
        self.slots.lock(rt).listeners.push(listener)?;
        Ok(())
    }

    /// The connection of a peer is up. Returns `None` where one of it is up already, and where the node stops.
    pub fn begin<R: Wait>(&self, rt: &R, peer: usize, stream: TcpStream) -> Option<ConnectionId> {
        let mut slots = self.slots.lock(rt);
        let place = slots.streams.get(peer)?;
        if place.is_some() {
            return None;
        }
        slots.put(peer, stream)
    }

    /// The connection of a peer is up, in place of the one that was, which is shut down. Returns `None` where the node stops.
    pub fn replace<R: Wait>(&self, rt: &R, peer: usize, stream: TcpStream) -> Option<ConnectionId> {
        let mut slots = self.slots.lock(rt);
        if let Some(up) = slots.streams.get(peer)? {
            let _ = up.stream.shutdown(Shutdown::Both);
        }
        slots.put(peer, stream)
    }

    /// It is down, unless another one has taken its place.
    pub fn end<R: Wait>(&self, rt: &R, peer: usize, id: ConnectionId) {
        let mut slots = self.slots.lock(rt);
        if let Some(place) = slots.streams.get_mut(peer) {
            if matches!(place, Some(up) if up.id == id) {
                *place = None;
            }
        }
    }

    /// Whether that of a peer is up.
    pub fn is_up<R: Wait>(&self, rt: &R, peer: usize) -> bool {
        match self.slots.lock(rt).streams.get(peer) {
            Some(place) => place.is_some(),
            None => false,
        }
    }

    /// Whether the node stops.
    pub fn is_stopping<R: Wait>(&self, rt: &R) -> bool {
        self.slots.lock(rt).is_stopping
    }

    /// Whether the run ends.
    pub fn is_quitting<R: Wait>(&self, rt: &R) -> bool {
        self.slots.lock(rt).is_quitting
    }

    /// Waits for so many seconds, or until the node stops, and returns whether it does.
    pub fn pause<R: Clock + Wait>(&self, rt: &R, seconds: u64) -> bool {
        self.pause_for(rt, Duration::from_secs(seconds))
    }

    /// Waits for so long, or until the node stops, and returns whether it does.
    pub fn pause_for<R: Clock + Wait>(&self, rt: &R, time: Duration) -> bool {
        let slots = self.slots.lock(rt);
        let (slots, _) = self
            .stopped
            .wait_timeout_while(rt, slots, time, |slots| !slots.is_stopping);
        slots.is_stopping
    }

    /// The node stops: no connection begins any more, those that are up end, and no pause lasts.
    pub fn stop<R: Wait>(&self, rt: &R) {
        let mut slots = self.slots.lock(rt);
        slots.is_stopping = true;
        for up in slots.streams.iter().flatten() {
            let _ = up.stream.shutdown(Shutdown::Both);
        }
        for listener in slots.listeners.iter() {
            let _ = listener.shutdown(Shutdown::Both);
        }
        drop(slots);
        self.stopped.notify_all();
    }

    /// The run ends: the node stops, and no other follows it.
    pub fn quit<R: Wait>(&self, rt: &R) {
        self.slots.lock(rt).is_quitting = true;
        self.stop(rt);
    }
}

impl Slots {
    // Puts a connection at a peer's place, unless the node stops.
    fn put(&mut self, peer: usize, stream: TcpStream) -> Option<ConnectionId> {
        if self.is_stopping {
            return None;
        }
        let place = self.streams.get_mut(peer)?;
        self.count = self.count.wrapping_add(1);
        let id = ConnectionId(self.count);
        *place = Some(Up { id, stream });
        Some(id)
    }
}
