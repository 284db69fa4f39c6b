//! The keys and tables of a configuration, and what can be wrong with a key.
ghost use Rattle.std.specs.Prelude.{◌≡◌, Some};
ghost use Rattle.node_config.specs.Keys.{key_name, keys_of};
ghost use Rattle.node_config.specs.Lines.{place_text, problem_text};

use std::fmt::{self, Display, Formatter};

/// A key of the document.
#[derive(Clone, Copy, Debug, PartialEq, Eq)]
pub enum Key {
    Device,
    Name,
    State,
    Status,
    Folder,
    Peer,
    Id,
    Path,
    HistoryLimit,
    MaxConflicts,
    Rescan,
    Look,
    TrashDays,
    Mode,
    Folders,
    Dial,
    Listen,
}

impl Key {
    /// How the document writes it. O(1).
    pub const fn name(self) -> &'static str
        ensures { result.now ≡ key_name self }
    {
        match self {
            Key::Device => "device",
            Key::Name => "name",
            Key::State => "state",
            Key::Status => "status",
            Key::Folder => "folder",
            Key::Peer => "peer",
            Key::Id => "id",
            Key::Path => "path",
            Key::HistoryLimit => "history_limit",
            Key::MaxConflicts => "max_conflicts",
            Key::Rescan => "rescan",
            Key::Look => "look",
            Key::TrashDays => "trash_days",
            Key::Mode => "mode",
            Key::Folders => "folders",
            Key::Dial => "dial",
            Key::Listen => "listen",
        }
    }
}

impl Display for Key {
    ghost output = { λ key. Some (key_name key) };

    fn fmt<W: fmt::Write>(&self, f: &mut Formatter<W>) -> fmt::Result {
        f.write_str(self.name())
    }
}

/// A table of the document. Displayed, it is what a line on one of its keys begins with.
#[derive(Clone, Copy, Debug, PartialEq, Eq)]
pub enum TablePlace {
    /// The document itself.
    Node,
    /// The `[[folder]]` of this number, counted from 1.
    Folder(usize),
    /// The `[[peer]]` of this number, counted from 1.
    Peer(usize),
}

impl TablePlace {
    /// The keys of the table, in the order of the table of `document.rt`. O(1).
    pub fn keys(self) -> &'static [Key]
        ensures { result.now ≡ keys_of self }
    {
        match self {
            TablePlace::Node => &[
                Key::Device,
                Key::Name,
                Key::State,
                Key::Status,
                Key::Folder,
                Key::Peer,
            ],
            TablePlace::Folder(_) => &[
                Key::Id,
                Key::Path,
                Key::HistoryLimit,
                Key::MaxConflicts,
                Key::Rescan,
                Key::Look,
                Key::TrashDays,
                Key::Mode,
            ],
            TablePlace::Peer(_) => &[Key::Device, Key::Folders, Key::Dial, Key::Listen],
        }
    }
}

impl Display for TablePlace {
    ghost output = { λ place. Some (place_text place) };

    fn fmt<W: fmt::Write>(&self, f: &mut Formatter<W>) -> fmt::Result {
        match self {
            TablePlace::Node => Ok(()),
            TablePlace::Folder(number) => write!(f, "folder {number}: "),
            TablePlace::Peer(number) => write!(f, "peer {number}: "),
        }
    }
}

/// What is wrong with a key. Displayed, it is how a line on the key ends.
#[derive(Clone, Copy, Debug, PartialEq, Eq)]
pub enum Problem {
    /// It is required and absent.
    Absent,
    /// Its value is not a string.
    NotString,
    /// Its value is not an integer.
    NotInteger,
    /// Its value is not one of the words of `look`, and not an integer.
    NotLook,
    /// Its value is not a string of three octal digits of which the first is 6 or 7.
    NotMode,
    /// Its value is not an array of tables.
    NotTables,
    /// Its value is not an array of strings.
    NotStrings,
    /// Its string is neither 64 hexadecimal digits nor the 56 characters of a device ID.
    NotDevice,
    /// It has the 56 characters, one of which is in no device ID.
    NotDeviceCharacter,
    /// It has the 56 characters, and this one of its four groups of 14, counted from 1, does not end in its check character.
    Mistyped { group: u8 },
    /// Its integer is below `low` or above `high`.
    OutOfRange { low: i64, high: i64 },
    /// Its string is empty.
    Empty,
    /// Its path is `~`, or begins with `~/`.
    BeginsWithTilde,
    /// Its string is that of an earlier folder or peer.
    Repeats,
    /// Its string is the identity of this device or of an earlier peer.
    SameDevice,
    /// The identity differs from that of this device or of an earlier peer, and the first 8 bytes do not.
    SameShortId,
    /// The string of this number in its array, counted from 1, is no folder's id.
    UnknownFolder { entry: usize },
    /// Both `dial` and `listen` are there.
    BothAddresses,
    /// Neither `dial` nor `listen` is there.
    NoAddress,
    /// It is the path of the folder of this number, counted from 1, or one inside of it.
    Inside { folder: usize },
    /// It is the path of the configuration.
    OfConfig,
    /// It is the path of the state, or of a file that is kept beside it.
    OfState,
    /// At its path is a file that isn't what belongs there.
    OtherFile,
}

impl Display for Problem {
    ghost output = { λ problem. Some (problem_text problem) };

    fn fmt<W: fmt::Write>(&self, f: &mut Formatter<W>) -> fmt::Result {
        match self {
            Problem::Absent => f.write_str("is absent"),
            Problem::NotString => f.write_str("is not a string"),
            Problem::NotInteger => f.write_str("is not an integer"),
            Problem::NotLook => { f.write_str("is not \"auto\", \"off\", or a number of seconds") }
            Problem::NotMode => f.write_str(
                "is not three octal digits whose first is 6 or 7, as \"600\"",
            ),
            Problem::NotTables => f.write_str(
                "is not an array of tables: write it in two brackets, as [[folder]]",
            ),
            Problem::NotStrings => f.write_str("is not an array of strings"),
            Problem::NotDevice => f.write_str(
                "is neither 64 hexadecimal digits nor a device ID as Syncthing shows it",
            ),
            Problem::NotDeviceCharacter => f.write_str("has a character that no device ID has"),
            Problem::Mistyped { group } => write!(
                f,
                "is mistyped: its check character {group} of 4 does not fit"
            ),
            Problem::OutOfRange { low, high } => write!(f, "is not from {low} to {high}"),
            Problem::Empty => f.write_str("is empty"),
            Problem::BeginsWithTilde => f.write_str(
                "begins with ~, which only a shell reads: write the whole path",
            ),
            Problem::Repeats => f.write_str("repeats an earlier one"),
            Problem::SameDevice => f.write_str("is that of another device"),
            Problem::SameShortId => f.write_str("begins with the same 8 bytes as another device"),
            Problem::UnknownFolder { entry } => {
                write!(f, "has as number {entry} the id of no folder")
            }
            Problem::BothAddresses => f.write_str("and listen are both given"),
            Problem::NoAddress => f.write_str("and listen are both absent"),
            Problem::Inside { folder } => write!(f, "is that of folder {folder}, or inside of it"),
            Problem::OfConfig => f.write_str("is that of the configuration: give it another path"),
            Problem::OfState => f.write_str(
                "is that of the state, or of a file beside it: give it another path",
            ),
            Problem::OtherFile => f.write_str(
                "is that of another file: remove it, or give another path",
            ),
        }
    }
}
