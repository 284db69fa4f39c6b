//! What is said of folders and peers, in words.
ghost use Rattle.std.specs.Prelude.{◌≡◌, ◌++◌, [], ◌∷◌, OnOk, codes, if◌then◌else◌, map, string_bytes, option_map};
ghost use Rattle.node_status.specs.Numbers.{progress_text};
ghost use Rattle.node_status.specs.Times.{time_text};
ghost use Rattle.node_status.specs.Words.{after, bracketed, came_text, digit_or_mark, folder_text, history_text, holdings_text, in_brackets, is_pulling, looked_text, needed_text, noted_text, origin_text, past_text, peer_text, received_text, recorded_text, scanned_text, short_text, state_text, times_text, why_text};

use crate::numbers::{push_bytes, push_count, push_part, push_progress};
use crate::status::{FolderState, FolderStatus, Noted, PeerStatus, Progress};
use crate::times::push_time;
use std::alloc::AllocError;

/// Appends how a folder is.
#[tactic(auto, unfolding(crate::specs::Words::folder_text))]
pub(crate) fn push_folder(text: &mut String, folder: &FolderStatus) -> Result<(), AllocError>
    ensures { OnOk result (string_bytes text.new ≡ string_bytes text.old ++ folder_text folder.now) }
{
    text.push_str(state_words(folder.state))?;
    push_how_far(text, folder.progress)?;
    push_needed(text, folder.state, folder.needed)?;
    push_received(text, folder)
}

fn state_words(state: FolderState) -> &'static str
    ensures { result.now ≡ state_text state }
{
    match state {
        FolderState::UpToDate => "up to date",
        FolderState::Behind => "behind",
        FolderState::Failing => "behind: names that can't be pulled stand below",
        FolderState::Scanning => "scanning",
        FolderState::Pulling => "pulling",
        FolderState::NoRoom => "stopped: the disk is full",
        FolderState::Away => "away: the directory isn't there, has no .stfolder, or is another one",
        FolderState::InUse => "stopped: another run has it",
        FolderState::Held => {
            "held: recorded names are missing; `scan` says that they are gone, and all devices delete them"
        }
    }
}

fn push_how_far(text: &mut String, progress: Option<Progress>) -> Result<(), AllocError>
    ensures { OnOk result (string_bytes text.new ≡ string_bytes text.old ++ after (codes " ") (option_map progress_text progress)) }
{
    match progress {
        Some(progress) => {
            text.push_str(" ")?;
            push_progress(text, progress)
        }
        None => Ok(()),
    }
}

fn push_needed(text: &mut String, state: FolderState, needed: u64) -> Result<(), AllocError>
    ensures { OnOk result (string_bytes text.new ≡ string_bytes text.old ++ needed_text state needed) }
{
    if needed == 0 || is_pulling(state) {
        return Ok(());
    }
    text.push_str(", ")?;
    push_count(text, needed, "name", "names")?;
    text.push_str(" needed")
}

// Appends the bytes that came for a folder, while it pulls.
fn push_received(text: &mut String, folder: &FolderStatus) -> Result<(), AllocError>
    ensures { OnOk result (string_bytes text.new ≡ string_bytes text.old ++ received_text folder.now) }
{
    if !is_pulling(folder.state) || folder.received == 0 {
        return Ok(());
    }
    push_came(text, folder.received, folder.rate)
}

fn is_pulling(state: FolderState) -> bool
    ensures { result ≡ is_pulling state }
{
    matches!(state, FolderState::Pulling)
}

fn push_came(text: &mut String, received: u64, rate: u64) -> Result<(), AllocError>
    ensures { OnOk result (string_bytes text.new ≡ string_bytes text.old ++ came_text received rate) }
{
    text.push_str(", ")?;
    push_bytes(text, received)?;
    text.push_str(" came, ")?;
    push_bytes(text, rate)?;
    text.push_str(" a second")
}

/// Appends what a folder has, and where.
pub(crate) fn push_holdings(text: &mut String, folder: &FolderStatus) -> Result<(), AllocError>
    ensures { OnOk result (string_bytes text.new ≡ string_bytes text.old ++ holdings_text folder.now) }
{
    text.push_str(recorded_words(folder.state))?;
    push_count(text, folder.files, "file", "files")?;
    text.push_str(", ")?;
    push_count(text, folder.directories, "directory", "directories")?;
    text.push_str(" in ")?;
    text.push_str(folder.path.as_str())
}

// What comes before what a folder has, where that is only known from its records.
fn recorded_words(state: FolderState) -> &'static str
    ensures { result.now ≡ recorded_text state }
{
    match state {
        FolderState::Away | FolderState::InUse | FolderState::Held => "recorded: ",
        FolderState::UpToDate
        | FolderState::Behind
        | FolderState::Failing
        | FolderState::Scanning
        | FolderState::Pulling
        | FolderState::NoRoom => "",
    }
}

/// Appends when a folder was scanned and looked at, and what its history takes.
#[tactic(auto, unfolding(crate::specs::Words::past_text))]
pub(crate) fn push_past(
    text: &mut String,
    made: u64,
    folder: &FolderStatus,
) -> Result<(), AllocError>
    ensures { OnOk result (string_bytes text.new ≡ string_bytes text.old ++ past_text made folder.now) }
{
    push_times(text, made, folder)?;
    push_history(text, folder.history)
}

fn push_times(text: &mut String, made: u64, folder: &FolderStatus) -> Result<(), AllocError>
    ensures { OnOk result (string_bytes text.new ≡ string_bytes text.old ++ times_text made folder.now) }
{
    push_scanned(text, made, folder.scanned)?;
    push_looked(text, made, folder.looked)
}

fn push_looked(text: &mut String, made: u64, looked: Option<u64>) -> Result<(), AllocError>
    ensures { OnOk result (string_bytes text.new ≡ string_bytes text.old ++ looked_text made looked) }
{
    match looked {
        Some(when) => {
            text.push_str("; looked ")?;
            push_time(text, made, when)
        }
        None => Ok(()),
    }
}

fn push_history(text: &mut String, history: Progress) -> Result<(), AllocError>
    ensures { OnOk result (string_bytes text.new ≡ string_bytes text.old ++ history_text history) }
{
    text.push_str("; history ")?;
    push_part(text, history)?;
    text.push_str(" changes")
}

fn push_scanned(text: &mut String, made: u64, scanned: Option<u64>) -> Result<(), AllocError>
    ensures { OnOk result (string_bytes text.new ≡ string_bytes text.old ++ scanned_text made scanned) }
{
    match scanned {
        Some(when) => {
            text.push_str("scanned ")?;
            push_time(text, made, when)
        }
        None => text.push_str("not scanned in this run"),
    }
}

/// Appends a name that is told, after words.
pub(crate) fn push_noted(
    text: &mut String,
    words: &str,
    made: u64,
    noted: &Noted,
) -> Result<(), AllocError>
    ensures { OnOk result (string_bytes text.new ≡ string_bytes text.old ++ noted_text words.now made noted.now) }
{
    text.push_str(words)?;
    text.push_str(noted.name.as_str())?;
    push_why(text, noted.why.as_str())?;
    push_time_in_brackets(text, made, noted.when)
}

fn push_time_in_brackets(text: &mut String, made: u64, when: Option<u64>) -> Result<(), AllocError>
    ensures { OnOk result (string_bytes text.new ≡ string_bytes text.old ++ in_brackets made when) }
{
    match when {
        Some(when) => push_in_brackets(text, made, when),
        None => Ok(()),
    }
}

fn push_in_brackets(text: &mut String, made: u64, when: u64) -> Result<(), AllocError>
    ensures { OnOk result (string_bytes text.new ≡ string_bytes text.old ++ bracketed made when) }
{
    text.push_str(" (")?;
    push_time(text, made, when)?;
    text.push_str(")")
}

fn push_why(text: &mut String, why: &str) -> Result<(), AllocError>
    ensures { OnOk result (string_bytes text.new ≡ string_bytes text.old ++ why_text why.now) }
{
    if why.is_empty() {
        return Ok(());
    }
    text.push_str(": ")?;
    text.push_str(why)
}

fn push_when(text: &mut String, words: &str, made: u64, when: Option<u64>) -> Result<(), AllocError>
    ensures { OnOk result (string_bytes text.new ≡ string_bytes text.old ++ after words.now (option_map (time_text made) when)) }
{
    match when {
        Some(when) => {
            text.push_str(words)?;
            push_time(text, made, when)
        }
        None => Ok(()),
    }
}

/// Appends how a peer is.
pub(crate) fn push_peer(text: &mut String, made: u64, peer: &PeerStatus) -> Result<(), AllocError>
    ensures { OnOk result (string_bytes text.new ≡ string_bytes text.old ++ peer_text made peer.now) }
{
    text.push_str(connection_words(peer.is_up))?;
    push_when(text, " since ", made, peer.since)?;
    push_after(text, ": ", &peer.why)
}

fn connection_words(is_up: bool) -> &'static str
    ensures { result.now ≡ (if is_up then codes "connected" else codes "not connected") }
{
    if is_up { "connected" } else { "not connected" }
}

/// Appends who a peer is, and from where.
pub(crate) fn push_origin(text: &mut String, peer: &PeerStatus) -> Result<(), AllocError>
    ensures { OnOk result (string_bytes text.new ≡ string_bytes text.old ++ origin_text peer.now) }
{
    text.push_str("device ")?;
    push_short(text, peer.device.as_str())?;
    push_after(text, from_words(peer.is_up), &peer.from)?;
    push_after(text, ", ", &peer.program)
}

fn from_words(is_up: bool) -> &'static str
    ensures { result.now ≡ (if is_up then codes ", from " else codes ", last from ") }
{
    if is_up { ", from " } else { ", last from " }
}

// Appends words and a text, if it is there.
fn push_after(text: &mut String, words: &str, more: &Option<String>) -> Result<(), AllocError>
    ensures { OnOk result (string_bytes text.new ≡ string_bytes text.old ++ after words.now (option_map string_bytes more.now)) }
{
    match more {
        Some(more) => {
            text.push_str(words)?;
            text.push_str(more.as_str())
        }
        None => Ok(()),
    }
}

/// Appends the first seven digits of an identity.
pub(crate) fn push_short(text: &mut String, device: &str) -> Result<(), AllocError>
    ensures { OnOk result (string_bytes text.new ≡ string_bytes text.old ++ short_text device.now) }
{
    let bytes = device.as_bytes();
    let front = if bytes.len() < 7 { bytes } else { &bytes[..7] };
    push_ascii(text, front)
}

// Appends bytes as characters, and `?` for each that is no ASCII.
fn push_ascii(text: &mut String, bytes: &[u8]) -> Result<(), AllocError>
    ensures { OnOk result (string_bytes text.new ≡ string_bytes text.old ++ map digit_or_mark bytes.now) }
{
    for byte in bytes {
        push_digit_or_mark(text, *byte)?;
    }
    Ok(())
}

fn push_digit_or_mark(text: &mut String, byte: u8) -> Result<(), AllocError>
    ensures { OnOk result (string_bytes text.new ≡ string_bytes text.old ++ (digit_or_mark byte ∷ [])) }
{
    let shown = if byte < 128 { byte } else { b'?' };
    text.push(shown as char)
}
