//! A peer that dials this device.
use crate::arrivals::{Arrival, Arrivals};
use crate::connection::{Begun, run_connection};
use crate::dial::is_later;
use crate::guest::{Greeted, Guest, Standing, seconds};
use crate::peer::Contact;
use crate::socket::Listener;
use crossbeam_channel::{Receiver, Sender, bounded};
use file_store::{FileStore, Gate};
use node_context::{Context, Endpoint, Event, Host, PeerEvent};
use peer_conn::KeptCalls;
use peer_link::LinkFolders;
use std::alloc::{AllocError, Global};
use std::io::ErrorKind;
use std::net::{IpAddr, Ipv4Addr, SocketAddr, TcpStream};
use std::sync::Wait;
use std::thread::join;
use std::time::Duration;
use sync_record::DeviceId;
use sync_version::Moment;

/// How many connections may wait for their ClusterConfig. Where another one comes, the one that waits longest is closed.
const MAX_GUESTS: usize = 16;

/// How many milliseconds lie between two looks at those that wait.
const LOOK_MILLIS: u64 = 20;

/// After how many seconds it is told that the peer has not connected yet.
const WAIT_SECONDS: u64 = 60;

/// How many connections may wait until the one whose place they take has ended.
const MAX_BEGUN: usize = 4;

/// A socket at which the peer is listened for, and where it is.
#[derive(Clone, Copy)]
pub(crate) struct Listening<'a> {
    pub(crate) listener: &'a Listener,
    pub(crate) endpoint: &'a Endpoint,
}

/// Takes the connections of the peer. One gets its place once its ClusterConfig is there; where another one is up by then, only if its ClusterConfig lists both
/// devices, and at most once each 10 seconds: else it is closed.
pub(crate) fn accept_each<R, S, W, G>(
    cx: &Context<R, G>,
    contact: &Contact,
    listening: &Listening,
    folders: LinkFolders<S, W>,
) -> LinkFolders<S, W>
where
    R: Host,
    S: FileStore + Drop + Send,
    W: KeptCalls + Drop + Send,
    G: Gate + Sync,
{
    let Ok((to_link, begun)) = bounded::<Begun, Global>(cx.alloc, MAX_BEGUN) else {
        return folders;
    };
    let ((), folders) = join(
        cx.rt,
        || accept(cx, contact, listening, to_link),
        || run_each(cx, contact, folders, begun),
    );
    folders
}

// Takes connections until the node stops.
fn accept<R: Host, G>(
    cx: &Context<R, G>,
    contact: &Contact,
    listening: &Listening,
    to_link: Sender<Begun>,
) {
    let listener = listening.listener;
    let mut door = Door {
        guests: Vec::new(cx.alloc),
        last_replaced: None,
        arrivals: Arrivals::none(),
        is_turn_told: false,
        waits_since: Some(now(cx)),
        to_link,
    };
    for _ in cx.rt.forever() {
        door.wait(cx, contact, listening.endpoint);
        // (with nothing to look at it waits in the call)
        let _ = listener.set_nonblocking(!door.guests.is_empty() || door.waits_since.is_some());
        let mut is_quiet = false;
        match listener.accept() {
            // (out of memory it is closed)
            Ok(stream) => {
                let _ = door.let_in(cx, contact, stream);
            }
            Err(error) if error.kind() == ErrorKind::WouldBlock => is_quiet = true,
            // (where no more files can be opened, an accept fails again and again)
            Err(_) => {
                if cx.pause(1) {
                    return;
                }
            }
        }
        door.look(cx, contact);
        if cx.is_stopping() {
            return;
        }
        if is_quiet && cx.pause_for(Duration::from_millis(LOOK_MILLIS)) {
            return;
        }
    }
}

// The connections that wait for their ClusterConfig, and where they go then.
#[derive(Drop)]
struct Door {
    guests: Vec<Guest>,
    // When one took the place of another, in seconds.
    last_replaced: Option<u64>,
    // From where those came that did.
    arrivals: Arrivals,
    // Whether it was told that two devices do so in turn.
    is_turn_told: bool,
    // As long as none has come and that was not told: since when one is waited for, in seconds.
    waits_since: Option<u64>,
    to_link: Sender<Begun>,
}

// The seconds since an arbitrary moment.
fn now<R: Host, G>(cx: &Context<R, G>) -> u64 {
    seconds(cx.rt, Moment::new(0).unwrap()).seconds()
}

impl Door {
    // Tells, once, that nobody has connected for a minute.
    fn wait<R: Host, G>(&mut self, cx: &Context<R, G>, contact: &Contact, endpoint: &Endpoint) {
        let Some(since) = self.waits_since else {
            return;
        };
        if now(cx).saturating_sub(since) < WAIT_SECONDS {
            return;
        }
        self.waits_since = None;
        let event = PeerEvent::NobodyDialled(endpoint, WAIT_SECONDS);
        cx.tell(&Event::Peer(contact.peer.device, event));
    }

    // Tells, once, that two devices have connections as this peer in turn, if they do, once one has come.
    fn arrive<R: Host, G>(
        &mut self,
        cx: &Context<R, G>,
        contact: &Contact,
        greeted: &Greeted,
        has_replaced: bool,
    ) {
        self.waits_since = None;
        let from = match greeted.stream.peer_addr() {
            Ok(SocketAddr::V4(address)) => address.ip().to_bits(),
            _ => 0,
        };
        let arrival = Arrival {
            from,
            index_id: greeted.index_id,
            at: now(cx),
        };
        let Some(other) = self.arrivals.take(arrival, has_replaced) else {
            return;
        };
        if !self.is_turn_told {
            self.is_turn_told = true;
            let event = PeerEvent::InTurn(both(other, from));
            cx.tell(&Event::Peer(contact.peer.device, event));
        }
    }

    fn let_in<R: Host, G>(
        &mut self,
        cx: &Context<R, G>,
        contact: &Contact,
        stream: TcpStream,
    ) -> Result<(), AllocError> {
        let _ = stream.set_nonblocking(true);
        if self.guests.len() >= MAX_GUESTS {
            drop(self.guests.remove(0));
        }
        if let Ok(guest) = Guest::new(cx.rt, cx.alloc, stream, contact.frame.as_slice()) {
            self.guests.push(guest)?;
        }
        Ok(())
    }

    // Looks at each of them once.
    fn look<R: Host, G>(&mut self, cx: &Context<R, G>, contact: &Contact) {
        for _ in 0..self.guests.len() {
            if self.guests.is_empty() {
                return;
            }
            let guest = self.guests.remove(0);
            let (peer, from) = (contact.peer.device, guest.from);
            match guest.look(cx.rt, cx.alloc, contact.me, peer) {
                Standing::Waits(guest) => {
                    let _ = self.guests.push(guest);
                }
                Standing::Greeted(greeted) => self.begin(cx, contact, greeted),
                Standing::Gone(why) => {
                    cx.tell(&Event::Peer(peer, PeerEvent::Gone(&why)));
                    tell_stranger(cx, peer, from);
                }
                Standing::Silent => {
                    cx.tell(&Event::Peer(peer, PeerEvent::Silent));
                    tell_stranger(cx, peer, from);
                }
            }
        }
    }

    // Gives it the peer's place, if that is free or may be taken. Else it is closed.
    fn begin<R: Host, G>(&mut self, cx: &Context<R, G>, contact: &Contact, greeted: Greeted) {
        let _ = greeted.stream.set_nonblocking(false);
        let Ok(clone) = greeted.stream.try_clone() else {
            return;
        };
        let is_up = cx.connections.is_up(cx.rt, contact.peer.place);
        if is_up && !(greeted.lists_both && is_later(cx.rt, &mut self.last_replaced)) {
            return;
        }
        self.arrive(cx, contact, &greeted, is_up);
        let Some(id) = cx.connections.replace(cx.rt, contact.peer.place, clone) else {
            return;
        };
        let begun = Begun {
            stream: greeted.stream,
            id,
            came: greeted.came,
            written: contact.frame.len(),
        };
        if self.to_link.try_send(cx.rt, begun).is_err() {
            cx.connections.end(cx.rt, contact.peer.place, id);
        }
    }
}

// The addresses of two devices, where these tell them apart.
fn both(one: u32, other: u32) -> Option<(IpAddr, IpAddr)> {
    if one == other {
        return None;
    }
    let address = |bits: u32| IpAddr::V4(Ipv4Addr::from_bits(bits));
    Some((address(one), address(other)))
}

// Tells from where one came that wasn't taken, where the system says that.
fn tell_stranger<R: Host, G>(cx: &Context<R, G>, peer: DeviceId, from: Option<SocketAddr>) {
    if let Some(address) = from {
        cx.tell(&Event::Peer(peer, PeerEvent::Stranger(address)));
    }
}

// Runs each connection that has the place.
fn run_each<R, S, W, G>(
    cx: &Context<R, G>,
    contact: &Contact,
    folders: LinkFolders<S, W>,
    begun: Receiver<Begun>,
) -> LinkFolders<S, W>
where
    R: Host,
    S: FileStore + Drop + Send,
    W: KeptCalls + Drop + Send,
    G: Gate + Sync,
{
    let mut folders = folders;
    for begun in begun.iter(cx.rt) {
        (folders, _) = run_connection(cx, contact, folders, begun);
    }
    folders
}
