//! The numbers of a folder: of each the key, the values that it may have, the one that it has where the document has none, what it says, and the words that
//! stand for some of its values.
ghost use Rattle.std.specs.Prelude.{◌≡◌, option_map};
ghost use Rattle.node_config.specs.FolderNumbers.{key_of, no_number, range_of, word_for, word_of};

use crate::key::{Key, Problem};

/// A number of a folder, which the document may leave out.
#[derive(Clone, Copy, Debug, PartialEq, Eq)]
pub enum FolderNumber {
    HistoryLimit,
    MaxConflicts,
    Rescan,
    Look,
    TrashDays,
}

/// Which values a number may have.
#[derive(Clone, Copy, Debug, PartialEq, Eq)]
pub struct NumberRange {
    /// The least.
    pub low: i64,
    /// The greatest.
    pub high: i64,
    /// The one where the document has none.
    pub default: i64,
}

/// What is told of a number, and read by.
#[derive(Clone, Copy, Debug)]
pub struct NumberRule {
    /// The key under which the document has it.
    pub key: Key,
    /// Its values.
    pub range: NumberRange,
    /// What it says, for people.
    pub sentence: &'static str,
}

impl FolderNumber {
    /// All, in the order in which they are told and read.
    pub const ALL: [FolderNumber; 5] = [
        FolderNumber::HistoryLimit,
        FolderNumber::MaxConflicts,
        FolderNumber::Rescan,
        FolderNumber::Look,
        FolderNumber::TrashDays,
    ];

    /// The table of the numbers. O(1).
    pub fn rule(self) -> NumberRule
        ensures key { result.key ≡ key_of self }
        ensures range { result.range ≡ range_of self }
    {
        match self {
            FolderNumber::HistoryLimit => NumberRule {
                key: Key::HistoryLimit,
                range: NumberRange {
                    low: 1,
                    high: 100_000_000,
                    default: 1_000_000,
                },
                sentence: "The most changes that are kept in memory.",
            },
            FolderNumber::MaxConflicts => NumberRule {
                key: Key::MaxConflicts,
                range: NumberRange {
                    low: -1,
                    high: 1_000,
                    default: -1,
                },
                sentence: "The most conflict copies that are kept of a name; -1 is any number.",
            },
            FolderNumber::Rescan => NumberRule {
                key: Key::Rescan,
                // (a year)
                range: NumberRange {
                    low: 0,
                    high: 31_536_000,
                    default: 86_400,
                },
                sentence: "How many seconds lie between two scans that read everything; 0 is no such scans.",
            },
            FolderNumber::Look => NumberRule {
                key: Key::Look,
                // (a day)
                range: NumberRange {
                    low: -1,
                    high: 86_400,
                    default: -1,
                },
                sentence: "How many seconds lie between two looks at what changed; \"auto\" is as often as costs little, \"off\" is none.",
            },
            FolderNumber::TrashDays => NumberRule {
                key: Key::TrashDays,
                // (a hundred years)
                range: NumberRange {
                    low: 0,
                    high: 36_500,
                    default: 0,
                },
                sentence: "How many days what a peer's record replaces or deletes is kept in .stversions; 0 is not at all.",
            },
        }
    }

    /// The value for which a word stands in a document. O(1).
    pub fn word(self, text: &str) -> Option<i64>
        ensures { result ≡ word_of self text.now }
    {
        match self {
            FolderNumber::Look if text == "auto" => Some(-1),
            FolderNumber::Look if text == "off" => Some(0),
            FolderNumber::Look => None,
            FolderNumber::HistoryLimit => None,
            FolderNumber::MaxConflicts => None,
            FolderNumber::Rescan => None,
            FolderNumber::TrashDays => None,
        }
    }

    /// The word that stands for a value in a document. O(1).
    pub fn word_for(self, number: i64) -> Option<&'static str>
        ensures { option_map (λ word. word.now) result ≡ word_for self number }
    {
        match self {
            FolderNumber::Look if number == -1 => Some("auto"),
            FolderNumber::Look if number == 0 => Some("off"),
            FolderNumber::Look => None,
            FolderNumber::HistoryLimit => None,
            FolderNumber::MaxConflicts => None,
            FolderNumber::Rescan => None,
            FolderNumber::TrashDays => None,
        }
    }

    /// What is wrong with what is no word of it, and no integer. O(1).
    pub(crate) fn no_number(self) -> Problem
        ensures { result ≡ no_number self }
    {
        match self {
            FolderNumber::HistoryLimit => Problem::NotInteger,
            FolderNumber::MaxConflicts => Problem::NotInteger,
            FolderNumber::Rescan => Problem::NotInteger,
            FolderNumber::Look => Problem::NotLook,
            FolderNumber::TrashDays => Problem::NotInteger,
        }
    }
}
