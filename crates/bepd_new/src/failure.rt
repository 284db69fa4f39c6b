//! Why no configuration was made: its line on standard error, and the exit status.
ghost use Rattle.std.specs.Prelude.{◌≡◌, Some};
ghost use Rattle.std.specs.IoError.{error_kind};
ghost use Rattle.bepd_new.specs.Failures.{io_failure, new_failure_status, new_failure_text};
ghost use Rattle.bepd_new.specs.declared.failure.NewFailure.TheVariants as failure;

use bep_messages::Text;
use std::alloc::{AllocError, AllocFailed, Global};
use std::fmt::{self, Display, Formatter};
use std::io;
use thiserror::Error;

/// Why no configuration was made. Displayed, it is the line for standard error.
#[derive(Debug, Drop, Error)]
pub enum NewFailure {
    /// The words, or a certificate, are refused. This says what is wrong.
    Refused(Text),
    /// This file is there already, which stays as it is.
    Exists(Text),
    /// A file can't be read or written. This says which one, and why.
    File(Text),
    /// Memory ran out.
    OutOfMemory,
    /// The output can't be written, or the random numbers not be read.
    ReadOrWrite,
}

impl NewFailure {
    /// The exit status of a program that ends so: 1 for words that are refused, 4 where memory ran out, and 5 for what can't be read or written.
    pub fn status(&self) -> u8
        ensures { result ≡ new_failure_status self.now }
    {
        match self {
            NewFailure::Refused(_) => 1,
            NewFailure::OutOfMemory => 4,
            NewFailure::Exists(_) => 5,
            NewFailure::File(_) => 5,
            NewFailure::ReadOrWrite => 5,
        }
    }
}

impl Display for NewFailure {
    ghost output = { λ failed. Some (new_failure_text failed) };

    fn fmt<W: fmt::Write>(&self, f: &mut Formatter<W>) -> fmt::Result {
        match self {
            NewFailure::Refused(about) => write!(f, "fault {}", about.as_str()),
            NewFailure::OutOfMemory => f.write_str("fault 33 OutOfMemory"),
            NewFailure::Exists(name) => write!(f, "fault {} is there already", name.as_str()),
            NewFailure::File(about) => write!(f, "fault read or write\n{}", about.as_str()),
            NewFailure::ReadOrWrite => f.write_str("fault read or write"),
        }
    }
}

impl From<AllocError> for NewFailure {
    ghost from_gives = { λ _ failed. failed ≡ failure.OutOfMemory };

    fn from(_failed: AllocError) -> NewFailure {
        NewFailure::OutOfMemory
    }
}

impl<T: Drop> From<AllocFailed<T>> for NewFailure {
    ghost from_gives = { λ _ failed. failed ≡ failure.OutOfMemory };

    fn from(_failed: AllocFailed<T>) -> NewFailure {
        NewFailure::OutOfMemory
    }
}

impl From<io::Error> for NewFailure {
    ghost from_gives = { λ error failed. failed ≡ io_failure (error_kind error) };

    fn from(error: io::Error) -> NewFailure {
        match error.kind() {
            io::ErrorKind::OutOfMemory => NewFailure::OutOfMemory,
            _ => NewFailure::ReadOrWrite,
        }
    }
}

/// A file at the path can't be read or written, for this reason of the system.
pub(crate) fn file_failure(alloc: Global, what: &str, path: &str, error: io::Error) -> NewFailure {
    if error.kind() == io::ErrorKind::OutOfMemory {
        return NewFailure::OutOfMemory;
    }
    match format!(in alloc; "{what} {path}: {error}") {
        Ok(about) => NewFailure::File(Text::from_string(about)),
        Err(_) => NewFailure::OutOfMemory,
    }
}
