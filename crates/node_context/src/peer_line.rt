//! The text of what happened to connections of a peer.
use crate::board::Board;
use crate::event::{Heard, PeerEvent, ShareGap};
use bep_messages::Text;
use peer_reader::ReaderStop;
use std::io::{self, Write};
use std::net::IpAddr;
use sync_record::DeviceId;

/// The number of the fault of a message that is compressed.
const COMPRESSED: u8 = 12;

/// Appends what happened to connections of the peer.
pub(crate) fn push_peer_event(
    line: &mut Vec<u8>,
    board: &Board,
    peer: DeviceId,
    event: &PeerEvent,
) -> io::Result<()> {
    match event {
        PeerEvent::Listening(endpoint) => {
            write!(line, "listening on {endpoint} for ")?;
            push_device(line, board, peer)
        }
        PeerEvent::Connected(heard) => {
            line.extend_from_slice(b"connected ")?;
            push_identity(line, peer)?;
            push_heard(line, heard)
        }
        PeerEvent::Unshared(folder, gap) => {
            line.extend_from_slice(b"not shared ")?;
            push_front(line, folder)?;
            push_with(line, ": ", board, peer)?;
            Ok(line.extend_from_slice(gap_text(*gap).as_bytes())?)
        }
        PeerEvent::UnsharedMore(count) => {
            write!(line, "not shared: {count} more folders of ")?;
            push_device(line, board, peer)
        }
        PeerEvent::Stranger(address) => {
            write!(
                line,
                "stranger {address}: no ClusterConfig came from there, so it was not taken for "
            )?;
            push_device(line, board, peer)
        }
        PeerEvent::OwnIdentity => {
            push_with(line, "not taken for ", board, peer)?;
            Ok(line.extend_from_slice(OWN_IDENTITY)?)
        }
        PeerEvent::NobodyDialled(endpoint, seconds) => {
            push_with(line, "waiting for ", board, peer)?;
            write!(
                line,
                ": it has not connected in {seconds} seconds: it must dial {endpoint}, or be dialled from here"
            )
        }
        PeerEvent::InTurn(from) => {
            push_with(line, "two devices as ", board, peer)?;
            push_turn(line, *from)
        }
        PeerEvent::Unreached(endpoint, why, seconds) => {
            push_with(line, "not reached ", board, peer)?;
            write!(
                line,
                ": {endpoint}: {why}; tried again each {seconds} seconds"
            )
        }
        PeerEvent::Gone(why) => {
            push_with(line, "gone ", board, peer)?;
            line.extend_from_slice(b": ")?;
            push_why(line, why)
        }
        PeerEvent::Anew(why) => {
            push_with(line, "gone ", board, peer)?;
            write!(line, ": {why}: the connection begins anew")
        }
        PeerEvent::Silent => {
            push_with(line, "gone ", board, peer)?;
            line.extend_from_slice(b": ")?;
            Ok(line.extend_from_slice(SILENT)?)
        }
    }
}

const OWN_IDENTITY: &[u8] =
    b": who is there has the identity of this device: each device needs one of its own (bepd new makes one)";

/// Why a connection is ended that says too little.
pub(crate) const SILENT: &[u8] = b"no ClusterConfig came within 10 seconds";

fn push_with(line: &mut Vec<u8>, words: &str, board: &Board, peer: DeviceId) -> io::Result<()> {
    line.extend_from_slice(words.as_bytes())?;
    push_device(line, board, peer)
}

fn push_turn(line: &mut Vec<u8>, from: Option<(IpAddr, IpAddr)>) -> io::Result<()> {
    match from {
        Some((one, other)) => write!(line, ": {one} and {other} connect in turn")?,
        None => line.extend_from_slice(b": they connect in turn")?,
    }
    Ok(line.extend_from_slice(b": each device needs an identity of its own, or edits are lost")?)
}

fn push_heard(line: &mut Vec<u8>, heard: &Heard) -> io::Result<()> {
    line.extend_from_slice(b": ")?;
    push_reason(line, &heard.name)?;
    line.extend_from_slice(b", ")?;
    push_reason(line, &heard.program)?;
    line.push(b' ')?;
    push_reason(line, &heard.version)?;
    match heard.address {
        Some(address) => write!(line, ", from {address} (not verified)"),
        None => write!(line, " (not verified)"),
    }
}

fn gap_text(gap: ShareGap) -> &'static str {
    match gap {
        ShareGap::NotThere => " does not share it: add it there",
        ShareGap::OtherCase =>
            " does not share it, but one that differs in capitals: give both one id",
        ShareGap::NotHere => " shares it, and here it is not shared with that device: add it here",
        ShareGap::NotWithUs =>
            " has it, and does not share it with this device's identity: share it there, or is that mistyped there?",
        ShareGap::WithoutPeer =>
            " has it, and itself another identity than this one: is it mistyped here?",
    }
}

/// Appends which device it is: the name that it gave itself last and the front of its identity, or all of that where it gave no name yet.
pub(crate) fn push_device(line: &mut Vec<u8>, board: &Board, device: DeviceId) -> io::Result<()> {
    match board.name_of(device) {
        Some(name) => {
            line.extend_from_slice(name.as_bytes())?;
            line.extend_from_slice(b" (")?;
            for byte in device.bytes().iter().take(FRONT_BYTES) {
                write!(line, "{byte:02x}")?;
            }
            Ok(line.push(b')')?)
        }
        None => push_identity(line, device),
    }
}

// How many bytes of an identity are told beside a name.
const FRONT_BYTES: usize = 4;

// Appends an identity, in hexadecimal digits.
fn push_identity(line: &mut Vec<u8>, device: DeviceId) -> io::Result<()> {
    for byte in device.bytes() {
        write!(line, "{byte:02x}")?;
    }
    Ok(())
}

/// Appends why a connection ended.
pub(crate) fn push_why(line: &mut Vec<u8>, why: &ReaderStop) -> io::Result<()> {
    match why {
        ReaderStop::InputEnded => line.extend_from_slice(b"the connection ended")?,
        ReaderStop::Read(_) => line.extend_from_slice(b"a read failed")?,
        ReaderStop::Closed(reason) => {
            line.extend_from_slice(b"the peer closed it: ")?;
            push_reason(line, reason)?;
        }
        ReaderStop::Fault(fault) => {
            write!(line, "{} {fault}", fault.number())?;
            if fault.number() == COMPRESSED {
                line.extend_from_slice(b"; turn Compression off for this device at the other end")?;
            }
        }
        ReaderStop::TimedOut => line.extend_from_slice(b"52 TimedOut")?,
        ReaderStop::HistoryFull => line.extend_from_slice(b"32 HistoryFull")?,
        ReaderStop::OutOfMemory => line.extend_from_slice(b"33 OutOfMemory")?,
    }
    Ok(())
}

// The most characters of what a peer says that are told.
const MAX_CHARS: usize = 200;

// The same of a reason.
fn push_reason(line: &mut Vec<u8>, reason: &Text) -> io::Result<()> {
    push_front(line, reason.as_str())
}

/// Appends a text that a peer gave, or the front of it, with `?` for each control character.
pub(crate) fn push_front(line: &mut Vec<u8>, text: &str) -> io::Result<()> {
    for char in text.chars().take(MAX_CHARS) {
        let shown = if char.is_control() { '?' } else { char };
        write!(line, "{shown}")?;
    }
    Ok(())
}
