//! What a listing leaves out.
ghost use Rattle.std.specs.Prelude.{◌≡◌, Some};
ghost use Rattle.file_dir.specs.Skips.{skip_reason_text};

use std::fmt::{self, Display, Formatter};

/// Why a listing leaves out a name, or why other devices can't have it.
#[derive(Clone, Copy, Debug, PartialEq, Eq)]
pub enum SkipReason {
    /// The name isn't UTF-8.
    NotUtf8,
    /// The name isn't in Unicode's form NFC, as those that a Mac makes.
    NotNfc,
    /// A symbolic link.
    Link,
    /// A pipe, a socket or a device.
    Special,
    /// A component of the name has more than 240 bytes. It is listed, but on many file systems there can be no temporary file beside it.
    TooLong,
    /// A directory that can't be read, or something that can't be looked at. Nothing in it is listed, and nothing that is recorded of it counts as deleted.
    Unreadable,
}

impl Display for SkipReason {
    ghost output = { λ reason. Some (skip_reason_text reason) };

    fn fmt<W: fmt::Write>(&self, f: &mut Formatter<W>) -> fmt::Result {
        f.write_str(match self {
            SkipReason::NotUtf8 => "not UTF-8",
            SkipReason::NotNfc => "not in NFC",
            SkipReason::Link => "a symbolic link",
            SkipReason::Special => "a pipe, a socket or a device",
            SkipReason::TooLong => "too long (over 240 bytes)",
            SkipReason::Unreadable => "can't be read: are its permissions right?",
        })
    }
}

/// A name that a listing left out, as it can be shown.
#[derive(Debug, Drop)]
pub struct Skipped {
    /// The name below the folder; what isn't UTF-8 in it is shown as U+FFFD.
    pub name: String,
    /// Why it was left out.
    pub why: SkipReason,
}
