//! The error codes of a Response: generic, no such file, invalid file.
ghost use Rattle.std.specs.Prelude.{◌≡◌};
ghost use Rattle.block_server.specs.Served.{code_number};

/// Why a request is not answered with bytes (Block Exchange Protocol v1, "Response").
#[derive(Clone, Copy, Debug, PartialEq, Eq)]
pub enum Code {
    /// The store failed, or has fewer bytes than were asked for.
    Generic,
    /// There is no such file, or it has other bytes than those of the digest.
    NoSuchFile,
    /// No file may have the name, or the file has no such part.
    InvalidFile,
}

impl Code {
    /// The number of the protocol: 1, 2 or 3. O(1).
    pub fn number(self) -> i32
        ensures { result ≡ code_number self }
    {
        match self {
            Code::Generic => 1,
            Code::NoSuchFile => 2,
            Code::InvalidFile => 3,
        }
    }
}
