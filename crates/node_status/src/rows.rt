//! What is shown of a status, as rows: the same for a terminal and for a browser.
ghost use Rattle.std.specs.Prelude.{◌≡◌, ◌++◌, [], ◌∷◌, IfOk, OnOk, string_bytes, option_map, flat_map, if◌then◌else◌};
ghost use Rattle.std.specs.List.{list_any};
ghost use Rattle.node_status.specs.Rows.{ended_row, ended_rows, ended_text, folder_row, folder_rows, folder_mark, heading, memory_rows, is_bad, is_busy, leaves_out, more_rows, name_of, name_or_short, node_rows, noted_rows, peer_row, peer_rows, state_rows, status_rows, is_there, summary_mark, summary_of, summary_row, summary_text, title_of, title_row, words_row};
ghost use Rattle.node_status.specs.declared.rows.Summary.TheVariants.{Partial, Well};
ghost use Rattle.node_status.specs.Words.{holdings_text, noted_text, past_text, origin_text};

use crate::numbers::{push_bytes, push_number};
use crate::status::{FolderState, FolderStatus, Noted, PeerStatus, Progress, Status};
use crate::times::push_moment;
use crate::words::{
    push_folder, push_holdings, push_noted, push_origin, push_past, push_peer, push_short,
};
use std::alloc::{AllocError, Global};
use std::marker::Model;

/// What a row is, and how good that is.
#[derive(Clone, Copy)]
pub enum Mark {
    /// Whose status it is.
    Title,
    /// What the next rows are of.
    Heading,
    /// A folder or a peer that is in order.
    Good,
    /// One that waits or works.
    Busy,
    /// One that can't go on by itself.
    Bad,
    /// More of the row above.
    Note,
    /// The same, of something that is wrong.
    Trouble,
}

/// How all is.
#[derive(Clone, Copy)]
pub enum Summary {
    /// Something can't go on by itself.
    Trouble,
    /// Something is under way.
    Working,
    /// All is up to date, as far as is known: no peer is connected.
    Alone,
    /// All is up to date, but names are left out.
    Partial,
    /// All is up to date.
    Well,
}

/// A row.
#[derive(Drop)]
pub struct Row {
    pub(crate) mark: Mark,
    pub(crate) name: String,
    pub(crate) words: String,
    pub(crate) progress: Option<Progress>,
}

impl Model for Row {
    ghost use Rattle.std.specs.Prelude.{string_bytes};
    ghost use Rattle.node_status.specs.Rows.{ShownRow};

    ghost Value = { ShownRow };

    ghost view = { λ row. record { mark = row.mark; name = string_bytes row.name; words = string_bytes row.words; progress = row.progress } };
}

/// The rows of a status. O(n).
pub(crate) fn rows_of(alloc: Global, status: &Status) -> Result<Vec<Row>, AllocError>
    ensures { IfOk result (λ rows. rows.items ≡ status_rows status.now) }
{
    let mut rows = Vec::new(alloc);
    push_status(&mut rows, status)?;
    Ok(rows)
}

/// The rows of a run of a device that ended then, in seconds since 1970.
pub(crate) fn ended_rows(
    alloc: Global,
    name: &str,
    device: &str,
    ended: u64,
) -> Result<Vec<Row>, AllocError>
    ensures { IfOk result (λ rows. rows.items ≡ ended_rows name.now device.now ended) }
{
    let mut rows = Vec::new(alloc);
    push_title_of(&mut rows, name, device, ended)?;
    push_ended_row(&mut rows, "In short")?;
    Ok(rows)
}

fn push_ended_row(rows: &mut Vec<Row>, name: &str) -> Result<(), AllocError>
    ensures { OnOk result (rows.new.items ≡ rows.old.items ++ (ended_row name.now ∷ [])) }
{
    let name = String::from_str(*rows.allocator(), name)?;
    let words = String::from_str(*rows.allocator(), ended_words())?;
    push_row(rows, Mark::Bad, name, words, None)
}

fn ended_words() -> &'static str
    ensures { result.now ≡ ended_text }
{
    "this run has ended: nothing is kept alike until the next one begins"
}

fn push_status(rows: &mut Vec<Row>, status: &Status) -> Result<(), AllocError>
    ensures { OnOk result (rows.new.items ≡ rows.old.items ++ status_rows status.now) }
{
    push_node_rows(rows, status)?;
    push_summary_row(rows, "In short", summary_of(status))?;
    push_state_rows(rows, &status.not_written)?;
    push_heading(rows, "Folders")?;
    push_folders(rows, status.made, status.folders.as_slice())?;
    push_heading(rows, "Peers")?;
    push_peers(rows, status.made, status.peers.as_slice())
}

// A text with nothing in it.
fn empty(rows: &Vec<Row>) -> String
    ensures { string_bytes result ≡ [] }
{
    String::new(*rows.allocator())
}

fn push_row(
    rows: &mut Vec<Row>,
    mark: Mark,
    name: String,
    words: String,
    progress: Option<Progress>,
) -> Result<(), AllocError>
    ensures { OnOk result (rows.new.items ≡ rows.old.items
        ++ (record { mark = mark; name = string_bytes name; words = string_bytes words; progress = progress } ∷ [])) }
{
    rows.push(Row {
        mark,
        name,
        words,
        progress,
    })?;
    Ok(())
}

fn push_words(rows: &mut Vec<Row>, mark: Mark, words: String) -> Result<(), AllocError>
    ensures { OnOk result (rows.new.items ≡ rows.old.items ++ (words_row mark (string_bytes words) ∷ [])) }
{
    let name = empty(rows);
    push_row(rows, mark, name, words, None)
}

fn push_heading(rows: &mut Vec<Row>, name: &str) -> Result<(), AllocError>
    ensures { OnOk result (rows.new.items ≡ rows.old.items ++ (heading name.now ∷ [])) }
{
    let name = String::from_str(*rows.allocator(), name)?;
    let words = empty(rows);
    push_row(rows, Mark::Heading, name, words, None)
}

// Two texts after each other.
fn push_joined(rows: &mut Vec<Row>, mark: Mark, words: &str, more: &str) -> Result<(), AllocError>
    ensures { OnOk result (rows.new.items ≡ rows.old.items ++ (words_row mark (words.now ++ more.now) ∷ [])) }
{
    let mut text = String::from_str(*rows.allocator(), words)?;
    text.push_str(more)?;
    push_words(rows, mark, text)
}

fn push_node_rows(rows: &mut Vec<Row>, status: &Status) -> Result<(), AllocError>
    ensures { OnOk result (rows.new.items ≡ rows.old.items ++ node_rows status.now) }
{
    push_title(rows, status)?;
    push_joined(rows, Mark::Note, "bepd v", status.version.as_str())?;
    push_joined(rows, Mark::Note, "device ", status.device.as_str())?;
    push_memory_row(rows, status.memory)
}

fn push_memory_row(rows: &mut Vec<Row>, memory: Option<u64>) -> Result<(), AllocError>
    ensures { OnOk result (rows.new.items ≡ rows.old.items ++ memory_rows memory) }
{
    match memory {
        Some(bytes) => {
            let mut words = String::from_str(*rows.allocator(), "memory ")?;
            push_bytes(&mut words, bytes)?;
            push_words(rows, Mark::Note, words)
        }
        None => Ok(()),
    }
}

fn push_title(rows: &mut Vec<Row>, status: &Status) -> Result<(), AllocError>
    ensures { OnOk result (rows.new.items ≡ rows.old.items ++ (title_row status.now ∷ [])) }
{
    let (name, device) = (status.name.as_str(), status.device.as_str());
    push_title_of(rows, name, device, status.made)
}

fn push_title_of(rows: &mut Vec<Row>, name: &str, device: &str, when: u64) -> Result<(), AllocError>
    ensures { OnOk result (rows.new.items ≡ rows.old.items ++ (title_of name.now device.now when ∷ [])) }
{
    let name = name_of(*rows.allocator(), name, device)?;
    let mut words = empty(rows);
    push_moment(&mut words, when)?;
    words.push_str(" UTC")?;
    push_row(rows, Mark::Title, name, words, None)
}

// A name, or where it is empty the first digits of the device's identity.
fn name_of(alloc: Global, name: &str, device: &str) -> Result<String, AllocError>
    ensures { IfOk result (λ text. string_bytes text ≡ name_or_short name.now device.now) }
{
    if !name.is_empty() {
        return String::from_str(alloc, name);
    }
    let mut text = String::new(alloc);
    push_short(&mut text, device)?;
    Ok(text)
}

fn push_summary_row(rows: &mut Vec<Row>, name: &str, summary: Summary) -> Result<(), AllocError>
    ensures { OnOk result (rows.new.items ≡ rows.old.items ++ (summary_row name.now summary ∷ [])) }
{
    let name = String::from_str(*rows.allocator(), name)?;
    let words = String::from_str(*rows.allocator(), summary_words(summary))?;
    push_row(rows, summary_mark(summary), name, words, None)
}

fn summary_mark(summary: Summary) -> Mark
    ensures { result ≡ summary_mark summary }
{
    match summary {
        Summary::Trouble => Mark::Bad,
        Summary::Working => Mark::Busy,
        Summary::Alone => Mark::Busy,
        Summary::Partial => Mark::Good,
        Summary::Well => Mark::Good,
    }
}

fn summary_words(summary: Summary) -> &'static str
    ensures { result.now ≡ summary_text summary }
{
    match summary {
        Summary::Trouble => "something needs you: see below",
        Summary::Working => "under way",
        Summary::Alone => "as far as is known: no peer is connected",
        Summary::Partial => "all is well, but for the names that are left out below",
        Summary::Well => "all is well",
    }
}

fn summary_of(status: &Status) -> Summary
    ensures { result ≡ summary_of status.now }
{
    if status.not_written.is_some() || has_bad(status.folders.as_slice()) {
        Summary::Trouble
    } else if has_busy(status.folders.as_slice()) {
        Summary::Working
    } else if has_peer(status.peers.as_slice()) {
        well(status.folders.as_slice())
    } else {
        Summary::Alone
    }
}

// All is up to date of these folders.
fn well(folders: &[FolderStatus]) -> Summary
    ensures { result ≡ (if list_any leaves_out folders.now then Partial else Well) }
{
    if has_left_out(folders) {
        Summary::Partial
    } else {
        Summary::Well
    }
}

fn has_left_out(folders: &[FolderStatus]) -> bool
    ensures { result ≡ list_any leaves_out folders.now }
{
    folders.iter().any(|folder| leaves_out(folder))
}

// Whether names of a folder are left out.
fn leaves_out(folder: &FolderStatus) -> bool
    ensures { result ≡ leaves_out folder.now }
{
    !folder.left_out.is_empty()
}

fn has_peer(peers: &[PeerStatus]) -> bool
    ensures { result ≡ list_any is_there peers.now }
{
    peers.iter().any(|peer| peer.is_up)
}

fn has_bad(folders: &[FolderStatus]) -> bool
    ensures { result ≡ list_any is_bad folders.now }
{
    folders
        .iter()
        .any(|folder| matches!(mark_of(folder.state), Mark::Bad))
}

fn has_busy(folders: &[FolderStatus]) -> bool
    ensures { result ≡ list_any is_busy folders.now }
{
    folders
        .iter()
        .any(|folder| matches!(mark_of(folder.state), Mark::Busy))
}

fn push_state_rows(rows: &mut Vec<Row>, not_written: &Option<String>) -> Result<(), AllocError>
    ensures { OnOk result (rows.new.items ≡ rows.old.items ++ state_rows (option_map string_bytes not_written.now)) }
{
    match not_written {
        Some(why) => {
            push_joined(
                rows,
                Mark::Trouble,
                "the state can't be written: ",
                why.as_str(),
            )?;
            push_joined(
                rows,
                Mark::Trouble,
                "until it can be, nothing is put in place, ",
                "and peers are told nothing",
            )
        }
        None => Ok(()),
    }
}

fn push_folders(rows: &mut Vec<Row>, made: u64, folders: &[FolderStatus]) -> Result<(), AllocError>
    ensures { OnOk result (rows.new.items ≡ rows.old.items ++ flat_map (folder_rows made) folders.now) }
{
    for folder in folders {
        push_folder_rows(rows, made, folder)?;
    }
    Ok(())
}

fn push_folder_rows(rows: &mut Vec<Row>, made: u64, folder: &FolderStatus) -> Result<(), AllocError>
    ensures { OnOk result (rows.new.items ≡ rows.old.items ++ folder_rows made folder.now) }
{
    push_folder_row(rows, folder)?;
    push_holdings_row(rows, folder)?;
    push_past_row(rows, made, folder)?;
    push_noted_rows(
        rows,
        Mark::Trouble,
        "failed: ",
        made,
        folder.failed.as_slice(),
    )?;
    push_more_row(rows, Mark::Trouble, folder.failed_more, " more failed")?;
    push_noted_rows(
        rows,
        Mark::Note,
        "left out: ",
        made,
        folder.left_out.as_slice(),
    )?;
    push_more_row(rows, Mark::Note, folder.left_out_more, " more left out")?;
    push_noted_rows(
        rows,
        Mark::Note,
        "conflict copy: ",
        made,
        folder.conflicts.as_slice(),
    )
}

fn push_folder_row(rows: &mut Vec<Row>, folder: &FolderStatus) -> Result<(), AllocError>
    ensures { OnOk result (rows.new.items ≡ rows.old.items ++ (folder_row folder.now ∷ [])) }
{
    let name = String::from_str(*rows.allocator(), folder.id.as_str())?;
    let mut words = empty(rows);
    push_folder(&mut words, folder)?;
    push_row(rows, mark_of(folder.state), name, words, folder.progress)
}

fn mark_of(state: FolderState) -> Mark
    ensures { result ≡ folder_mark state }
{
    match state {
        FolderState::UpToDate => Mark::Good,
        FolderState::Behind => Mark::Busy,
        FolderState::Failing => Mark::Bad,
        FolderState::Scanning => Mark::Busy,
        FolderState::Pulling => Mark::Busy,
        FolderState::NoRoom => Mark::Bad,
        FolderState::Away => Mark::Bad,
        FolderState::InUse => Mark::Bad,
        FolderState::Held => Mark::Bad,
    }
}

fn push_holdings_row(rows: &mut Vec<Row>, folder: &FolderStatus) -> Result<(), AllocError>
    ensures { OnOk result (rows.new.items ≡ rows.old.items ++ (words_row Mark.Note (holdings_text folder.now) ∷ [])) }
{
    let mut words = empty(rows);
    push_holdings(&mut words, folder)?;
    push_words(rows, Mark::Note, words)
}

fn push_past_row(rows: &mut Vec<Row>, made: u64, folder: &FolderStatus) -> Result<(), AllocError>
    ensures { OnOk result (rows.new.items ≡ rows.old.items ++ (words_row Mark.Note (past_text made folder.now) ∷ [])) }
{
    let mut words = empty(rows);
    push_past(&mut words, made, folder)?;
    push_words(rows, Mark::Note, words)
}

fn push_noted_rows(
    rows: &mut Vec<Row>,
    mark: Mark,
    words: &str,
    made: u64,
    all: &[Noted],
) -> Result<(), AllocError>
    ensures { OnOk result (rows.new.items ≡ rows.old.items ++ noted_rows mark words.now made all.now) }
{
    for noted in all {
        push_noted_row(rows, mark, words, made, noted)?;
    }
    Ok(())
}

fn push_noted_row(
    rows: &mut Vec<Row>,
    mark: Mark,
    words: &str,
    made: u64,
    noted: &Noted,
) -> Result<(), AllocError>
    ensures { OnOk result (rows.new.items ≡ rows.old.items ++ (words_row mark (noted_text words.now made noted.now) ∷ [])) }
{
    let mut text = empty(rows);
    push_noted(&mut text, words, made, noted)?;
    push_words(rows, mark, text)
}

fn push_more_row(rows: &mut Vec<Row>, mark: Mark, more: u64, words: &str) -> Result<(), AllocError>
    ensures { OnOk result (rows.new.items ≡ rows.old.items ++ more_rows mark more words.now) }
{
    if more == 0 {
        return Ok(());
    }
    let mut text = empty(rows);
    push_number(&mut text, more)?;
    text.push_str(words)?;
    push_words(rows, mark, text)
}

fn push_peers(rows: &mut Vec<Row>, made: u64, peers: &[PeerStatus]) -> Result<(), AllocError>
    ensures { OnOk result (rows.new.items ≡ rows.old.items ++ flat_map (peer_rows made) peers.now) }
{
    for peer in peers {
        push_peer_rows(rows, made, peer)?;
    }
    Ok(())
}

fn push_peer_rows(rows: &mut Vec<Row>, made: u64, peer: &PeerStatus) -> Result<(), AllocError>
    ensures { OnOk result (rows.new.items ≡ rows.old.items ++ peer_rows made peer.now) }
{
    push_peer_row(rows, made, peer)?;
    push_origin_row(rows, peer)
}

fn push_peer_row(rows: &mut Vec<Row>, made: u64, peer: &PeerStatus) -> Result<(), AllocError>
    ensures { OnOk result (rows.new.items ≡ rows.old.items ++ (peer_row made peer.now ∷ [])) }
{
    let name = name_of(
        *rows.allocator(),
        name_or_nothing(&peer.name),
        peer.device.as_str(),
    )?;
    let mut words = empty(rows);
    push_peer(&mut words, made, peer)?;
    let mark = if peer.is_up { Mark::Good } else { Mark::Busy };
    push_row(rows, mark, name, words, None)
}

fn name_or_nothing(name: &Option<String>) -> &str
    ensures { result.now ≡ name_of (option_map string_bytes name.now) }
{
    match name {
        Some(name) => name.as_str(),
        None => "",
    }
}

fn push_origin_row(rows: &mut Vec<Row>, peer: &PeerStatus) -> Result<(), AllocError>
    ensures { OnOk result (rows.new.items ≡ rows.old.items ++ (words_row Mark.Note (origin_text peer.now) ∷ [])) }
{
    let mut words = empty(rows);
    push_origin(&mut words, peer)?;
    push_words(rows, Mark::Note, words)
}
