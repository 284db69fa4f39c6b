//! Why a text is no device ID: its length, a character, or a check character that doesn't fit.
use thiserror::Error;

/// Why a text is no device's identity. Displayed, it says what is wrong with it.
#[derive(Clone, Copy, Debug, PartialEq, Eq, Drop, Error)]
pub enum DeviceFault {
    /// It is neither 64 hexadecimal digits, nor has 56 characters beside its dashes and blanks.
    #[error("is neither 64 hexadecimal digits nor a device ID of Syncthing's (56 letters and digits, dashes and blanks aside)")]
    Length,
    /// A character of the 56 is no letter, and no digit that is used.
    #[error("has a character that is neither a letter nor a digit that a device ID can have")]
    Character,
    /// A group of 14 characters, the first being 1, does not end in its check character.
    #[error("group {group} of 14 characters does not end in its check character: a typing mistake is in it")]
    Check { group: u8 },
}
