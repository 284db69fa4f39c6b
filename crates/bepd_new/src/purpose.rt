//! What the words of `bepd new` ask for.
ghost use Rattle.std.specs.Prelude.{◌≡◌, ℕ, List, IfErr, IfOk, MatchOption};
ghost use Rattle.std.specs.List.{list_any};
ghost use Rattle.bepd_new.specs.Purposes.{HasFault, HasWayFault, IsAskedBy, IsBadFolder, IsCut, IsFolder, IsWay, is_blank, is_control, is_plain, is_reach};

use std::fmt::{self, Display, Formatter};

/// The words of `bepd new`.
#[derive(Clone, Copy, Debug, PartialEq, Eq)]
pub struct NewWords<'a> {
    /// The directory of the configuration.
    pub directory: &'a str,
    /// Whether the peer is a device with Syncthing.
    pub is_for_syncthing: bool,
    /// The value of `--dial`.
    pub dial: Option<&'a str>,
    /// The value of `--listen`.
    pub listen: Option<&'a str>,
    /// The value of `--folder`.
    pub folder: Option<&'a str>,
}

/// What a first configuration is for.
#[derive(Clone, Copy, Debug, PartialEq, Eq)]
pub enum Purpose<'a> {
    /// To be filled in.
    Template,
    /// For a device with Syncthing.
    Syncthing(Link<'a>),
}

/// How a folder is kept alike with a device with Syncthing.
#[derive(Clone, Copy, Debug, PartialEq, Eq)]
pub struct Link<'a> {
    /// Who makes the connection.
    pub way: Way<'a>,
    /// The folder's id.
    pub id: &'a str,
    /// The folder's path.
    pub path: &'a str,
}

/// Who makes the connection between the tunnel of this device and Syncthing, and where: a host or an address, a colon and a port.
#[derive(Clone, Copy, Debug, PartialEq, Eq)]
pub enum Way<'a> {
    /// This device, to Syncthing there.
    Dial(&'a str),
    /// Syncthing, to this device there.
    Listen(&'a str),
}

/// What is wrong with the words. Displayed, it says so.
#[derive(Clone, Copy, Debug, PartialEq, Eq)]
pub enum WordFault {
    /// They go with Syncthing alone.
    NotForSyncthing,
    /// Neither `--dial` nor `--listen` is given.
    NoWay,
    /// Both are.
    BothWays,
    /// It is not a host, a colon and a port.
    BadReach,
    /// `--folder` is not given.
    NoFolder,
    /// It is not an id, a sign of equality and a path.
    BadFolder,
}

impl Display for WordFault {
    fn fmt<W: fmt::Write>(&self, f: &mut Formatter<W>) -> fmt::Result {
        f.write_str(match self {
            WordFault::NotForSyncthing => "--dial, --listen and --folder go with --syncthing",
            WordFault::NoWay =>
                "--syncthing wants --dial HOST:PORT, where Syncthing is, or --listen ADDRESS:PORT, where it is to connect",
            WordFault::BothWays => "--dial and --listen: one of them makes the connection",
            WordFault::BadReach =>
                "--dial or --listen is not a host or an address, a colon and a port, as 192.0.2.1:22000",
            WordFault::NoFolder => "--syncthing wants --folder ID=PATH",
            WordFault::BadFolder => "--folder is not ID=PATH, as docs=/home/me/docs",
        })
    }
}

/// What the words ask for, or what is wrong with them: of the way it is told before the folder. Does not allocate. O(n).
pub fn purpose_of<'a>(words: &NewWords<'a>) -> Result<Purpose<'a>, WordFault>
    ensures asked { IfOk result (IsAskedBy words.now) }
    ensures fault { IfErr result (HasFault words.now) }
{
    if !words.is_for_syncthing {
        if words.dial.is_some() || words.listen.is_some() || words.folder.is_some() {
            return Err(WordFault::NotForSyncthing);
        }
        return Ok(Purpose::Template);
    }
    let way = way_of(words.dial, words.listen)?;
    let Some(folder) = words.folder else {
        return Err(WordFault::NoFolder);
    };
    match folder_of(folder) {
        Some((id, path)) => Ok(Purpose::Syncthing(Link { way, id, path })),
        None => Err(WordFault::BadFolder),
    }
}

// Who makes the connection.
fn way_of<'a>(dial: Option<&'a str>, listen: Option<&'a str>) -> Result<Way<'a>, WordFault>
    ensures way { IfOk result (IsWay dial.entry listen.entry) }
    ensures fault { IfErr result (HasWayFault dial.entry listen.entry) }
{
    match (dial, listen) {
        (Some(reach), None) => {
            if !is_reach(reach) {
                return Err(WordFault::BadReach);
            }
            Ok(Way::Dial(reach))
        }
        (None, Some(reach)) => {
            if !is_reach(reach) {
                return Err(WordFault::BadReach);
            }
            Ok(Way::Listen(reach))
        }
        (None, None) => Err(WordFault::NoWay),
        (Some(_), Some(_)) => Err(WordFault::BothWays),
    }
}

// The id and the path of a folder.
fn folder_of(text: &str) -> Option<(&str, &str)>
    ensures { MatchOption result (IsBadFolder text.now) (λ parts. IsFolder text.now parts.0.now parts.1.now) }
{
    let (id, path) = cut(text)?;
    if !is_plain(id) || !is_plain(path) {
        return None;
    }
    Some((id, path))
}

// The text before the first sign of equality, and that after it.
fn cut(text: &str) -> Option<(&str, &str)>
    ensures { MatchOption result ((id path : List ℕ) → ¬ (IsCut text.now id path)) (λ parts. IsCut text.now parts.0.now parts.1.now
        × ((id path : List ℕ) → IsCut text.now id path → (id ≡ parts.0.now) × (path ≡ parts.1.now))) }
{
    text.split_once('=')
}

// Whether a text is not empty, and has no control character.
fn is_plain(text: &str) -> bool
    ensures { result ≡ is_plain text.now }
{
    !text.is_empty() && !has_control(text)
}

// Whether a text has something before its last colon and after it, and no blank or control character.
fn is_reach(text: &str) -> bool
    ensures { result ≡ is_reach text.now }
{
    let bytes = text.as_bytes();
    !has_blank(text) && bytes.contains(&b':') && !bytes.starts_with(b":") && !bytes.ends_with(b":")
}

fn has_control(text: &str) -> bool
    ensures { result ≡ list_any is_control text.now }
{
    text.as_bytes().iter().any(|byte| is_control(*byte))
}

fn has_blank(text: &str) -> bool
    ensures { result ≡ list_any is_blank text.now }
{
    text.as_bytes().iter().any(|byte| is_blank(*byte))
}

fn is_control(byte: u8) -> bool
    ensures { result ≡ is_control byte }
{
    byte < 32 || byte == 127
}

fn is_blank(byte: u8) -> bool
    ensures { result ≡ is_blank byte }
{
    byte == 32 || is_control(byte)
}
