//! A peer that is dialled, and when it is dialled again.
use crate::connection::{Begun, run_connection};
use crate::peer::Contact;
use crate::socket::connect;
use file_store::{FileStore, Gate};
use node_context::{Context, Endpoint, Event, Host, PeerEvent};
use peer_conn::KeptCalls;
use peer_link::LinkFolders;
use std::io::{self, ErrorKind};
use std::net::TcpStream;
use std::sync::Wait;
use std::time::{Clock, Duration};

/// How many seconds a peer is given to take a connection.
const CONNECT_SECONDS: u64 = 5;

/// After how many seconds a peer is dialled again. Where a connection is to begin anew that is done at once, at most as often.
const DIAL_SECONDS: u64 = 10;

/// Dials, and 10 seconds after a connection ended or could not be made, again.
pub(crate) fn dial_again<R, S, W, G>(
    cx: &Context<R, G>,
    contact: &Contact,
    endpoint: &Endpoint,
    folders: LinkFolders<S, W>,
) -> LinkFolders<S, W>
where
    R: Host,
    S: FileStore + Drop + Send,
    W: KeptCalls + Drop + Send,
    G: Gate + Sync,
{
    let mut folders = folders;
    let mut last_anew = None;
    // (why it was not reached the last time, if it was not)
    let mut told: Option<ErrorKind> = None;
    for _ in cx.rt.forever() {
        if cx.is_stopping() {
            break;
        }
        let mut is_anew = false;
        match dial(cx, endpoint) {
            Ok(stream) => {
                told = None;
                if let Some(begun) = begin(cx, contact, stream) {
                    (folders, is_anew) = run_connection(cx, contact, folders, begun);
                }
            }
            Err(why) => {
                if told != Some(why.kind()) && !cx.is_stopping() {
                    told = Some(why.kind());
                    let peer = contact.peer.device;
                    let event = PeerEvent::Unreached(endpoint, why, DIAL_SECONDS);
                    cx.tell(&Event::Peer(peer, event));
                }
            }
        }
        if is_anew && is_later(cx.rt, &mut last_anew) {
            continue;
        }
        if cx.pause(DIAL_SECONDS) {
            break;
        }
    }
    folders
}

// Makes a connection.
fn dial<R: Host, G>(cx: &Context<R, G>, endpoint: &Endpoint) -> io::Result<TcpStream> {
    connect(cx.rt, endpoint, Duration::from_secs(CONNECT_SECONDS))
}

// Gives a connection the peer's place. It has it at once, since this device makes no other meanwhile.
fn begin<R: Host, G>(cx: &Context<R, G>, contact: &Contact, stream: TcpStream) -> Option<Begun> {
    let clone = stream.try_clone().ok()?;
    let id = cx.connections.begin(cx.rt, contact.peer.place, clone)?;
    Some(Begun {
        stream,
        id,
        came: Vec::new(cx.alloc),
        written: 0,
    })
}

/// Whether so many seconds lie since the last time that this was said; it is then said now.
pub(crate) fn is_later<R: Clock>(rt: &R, last: &mut Option<u64>) -> bool {
    let Ok(now) = rt.monotonic() else {
        return false;
    };
    let now = now.as_secs();
    if matches!(*last, Some(before) if now.saturating_sub(before) < DIAL_SECONDS) {
        return false;
    }
    *last = Some(now);
    true
}
