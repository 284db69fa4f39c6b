//! Why a configuration is refused: a line that isn't TOML, or a key with a bad value; as one line of text.
ghost use Rattle.std.specs.Prelude.{◌≡◌, Some};
ghost use Rattle.node_config.specs.Faults.{fault_name, number_of};
ghost use Rattle.node_config.specs.Lines.{fault_text};
ghost use Rattle.node_config.specs.declared.fault.ConfigFault.TheVariants.{OutOfMemory};

use crate::key::{Key, Problem, TablePlace};
use std::alloc::AllocError;
use std::fmt::{self, Display, Formatter};
use thiserror::Error;

/// Why a text is no configuration. Displayed, it is one line that names the key, or the line of the text, and what is wrong with it, as
/// `folder 2: history_limit is not from 1 to 100000000`.
#[derive(Clone, Copy, Debug, PartialEq, Eq, Error)]
pub enum ConfigFault {
    /// The text is not TOML, from this line on, counted from 1.
    NotToml {
        line: usize,
    },
    /// A key of a table of the document has no value that is allowed there.
    BadKey {
        place: TablePlace,
        key: Key,
        problem: Problem,
    },
    /// Memory ran out.
    OutOfMemory,
}

impl ConfigFault {
    /// The number under which programs report the fault: 60, or 33 for `OutOfMemory`. O(1).
    pub fn number(self) -> u8
        ensures { result ≡ number_of self }
    {
        match self {
            ConfigFault::NotToml { .. } => 60,
            ConfigFault::BadKey { .. } => 60,
            ConfigFault::OutOfMemory => 33,
        }
    }

    /// The name of the number: `BadConfig` or `OutOfMemory`. O(1).
    pub fn name(self) -> &'static str
        ensures { result.now ≡ fault_name self }
    {
        match self {
            ConfigFault::NotToml { .. } => "BadConfig",
            ConfigFault::BadKey { .. } => "BadConfig",
            ConfigFault::OutOfMemory => "OutOfMemory",
        }
    }
}

impl Display for ConfigFault {
    ghost output = { λ fault. Some (fault_text fault) };

    fn fmt<W: fmt::Write>(&self, f: &mut Formatter<W>) -> fmt::Result {
        match self {
            ConfigFault::NotToml { line } => write!(f, "line {line}: not TOML"),
            ConfigFault::BadKey {
                place,
                key,
                problem,
            } => write!(f, "{place}{key} {problem}"),
            ConfigFault::OutOfMemory => f.write_str("out of memory"),
        }
    }
}

impl From<AllocError> for ConfigFault {
    ghost from_gives = { λ _ fault. fault ≡ OutOfMemory };

    fn from(_failed: AllocError) -> ConfigFault {
        ConfigFault::OutOfMemory
    }
}
