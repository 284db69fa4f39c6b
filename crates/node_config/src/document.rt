//! A configuration read from its TOML document, and the table of its keys with the values that each may have.
//!
//! | Key | Value |
//! |---|---|
//! | `device` | the identity of this device: 64 hexadecimal digits, in either case, or as Syncthing shows it |
//! | `name` | a string that peers see |
//! | `state` | the path of the state file: not empty, not `~`, and not from `~/` on, which only a shell reads |
//! | `status` | the path of a page that says how all is, with the same limits, or none where it is absent |
//! | `[[folder]]` `id` | a string that is not empty, unlike that of each other folder |
//! | `[[folder]]` `path` | the path of the folder, with those limits |
//! | `[[folder]]` `history_limit` | 1 to 100,000,000, or 1,000,000 where it is absent |
//! | `[[folder]]` `max_conflicts` | -1 to 1,000, or -1 where it is absent |
//! | `[[folder]]` `rescan` | 0 to 31,536,000 seconds, or 86,400 where it is absent |
//! | `[[folder]]` `look` | `"auto"` (or -1), `"off"` (or 0), or 1 to 86,400 seconds; `"auto"` where it is absent |
//! | `[[folder]]` `trash_days` | 0 to 36,500 days for which what a peer's record replaces or deletes is kept in `.stversions`, or 0, not at all, where it is absent |
//! | `[[folder]]` `mode` | the permission bits of new files: a string of three octal digits whose first is 6 or 7, as `"640"`; those that the system gives where it is absent |
//! | `[[peer]]` `device` | as above, unlike that of each other device, also in its first 8 bytes |
//! | `[[peer]]` `folders` | an array of the ids of folders above |
//! | `[[peer]]` `dial` or `listen` | one of them: an address, or `unix:` and the path of a socket; no two peers have the same in `listen`, where `localhost` is 127.0.0.1 |
//!
//! All but `status`, the five numbers and `mode` are required. There may be no `[[folder]]` and no `[[peer]]`. Other keys are ignored; [`unknown_keys`](crate::unknown_keys) tells them.
ghost use Rattle.std.specs.Prelude.{◌≡◌, ◌≤◌, ℕ, length, IfErr, IfOk, IsErrOf, IsOk};
ghost use Rattle.toml.specs.Errors.{IsBlank, IsMemory, IsWithin, span_start};
ghost use Rattle.toml.specs.View.{table_view};
ghost use Rattle.node_config.specs.Documents.{IsConfig, IsFaultOf, IsLineOf, config_of, line_at};
ghost use Rattle.node_config.specs.Rules.{IsConsistent};
ghost use Rattle.node_config.specs.Values.{Reads, device_at};

use crate::config::Config;
use crate::fault::ConfigFault;
use crate::folders::read_folders;
use crate::key::{Key, TablePlace};
use crate::path::{copied_path_at, optional_path_at};
use crate::peers::read_peers;
use crate::values::{copied_text_at, device_at};
use std::alloc::Global;
use toml::Table;
use toml::de::Error;

/// Reads the configuration of a text, which is a TOML document in UTF-8. The table above lists the keys.
///
/// # Errors
///
/// - [`ConfigFault::NotToml`] if the text is no TOML document. Its line is that of the byte at which the TOML reader stopped. The contract
///   says that it is a line of the text, since none says where that reader stops.
/// - [`ConfigFault::BadKey`] if a key is absent, has a value of another type or is out of its range; if a folder's id is empty or that of
///   another folder; if a peer's `folders` has a string that is no folder's id; if two devices, this one and the peers, have the same
///   identity or the same first 8 bytes of it; if a peer has both `dial` and `listen`, or neither; if two peers have the same address in
///   `listen`, where `localhost` is 127.0.0.1. Of several such keys it is the first, in this order: `device`, `name`, `state`, `status`, then each folder and each peer in the
///   order of the document, with the keys of each in the order of the table above.
/// - [`ConfigFault::OutOfMemory`] if memory ran out, and never for a text of white space and comments alone. For other texts no clause can
///   say that there is memory.
///
/// Whether an address can be read is not tested here: [`crate::read_address`] does that.
///
/// O(n + k²) time and O(n) memory, for a text of n bytes with k folders, peers and strings in `folders` in all.
pub fn read_config(alloc: Global, text: &[u8]) -> Result<Config, ConfigFault>
    ensures ok { IfOk result (IsConfig text.now) }
    ensures consistent { IfOk result IsConsistent }
    ensures err { IfErr result (IsFaultOf text.now) }
    ensures memory { IsErrOf result ConfigFault.OutOfMemory → ¬ (IsBlank text.now) }
{
    match toml::table_from_slice(alloc, text) {
        Ok(document) => read_document(alloc, &document),
        Err(error) => Err(toml_fault(text, &error)),
    }
}

/// The configuration of a document.
fn read_document(alloc: Global, document: &Table) -> Result<Config, ConfigFault>
    ensures value { Reads (config_of (table_view document.now)) result }
    ensures memory { IsErrOf result ConfigFault.OutOfMemory → IsOk (device_at (table_view document.now) TablePlace.Node) }
{
    let device = device_at(document, TablePlace::Node)?;
    let name = copied_text_at(alloc, document, TablePlace::Node, Key::Name)?;
    let state = copied_path_at(alloc, document, TablePlace::Node, Key::State)?;
    let status = optional_path_at(alloc, document, TablePlace::Node, Key::Status)?;
    let folders = read_folders(alloc, document)?;
    let peers = read_peers(alloc, device, folders.as_slice(), document)?;
    Ok(Config {
        device,
        name,
        state,
        status,
        folders,
        peers,
    })
}

/// Why a text is no TOML document.
pub(crate) fn toml_fault(text: &[u8], error: &Error) -> ConfigFault
    requires { IsWithin text.now error.now }
    ensures memory { IsMemory error.now → result ≡ ConfigFault.OutOfMemory }
    ensures line { ¬ (IsMemory error.now) → result ≡ ConfigFault.NotToml (line_at text.now (span_start error.now)) }
    ensures within { ¬ (IsMemory error.now) → (line : ℕ) × (result ≡ ConfigFault.NotToml line) × IsLineOf text.now line }
{
    match error.span() {
        Some(span) => ConfigFault::NotToml {
            line: line_of(text, span.start),
        },
        None => ConfigFault::OutOfMemory,
    }
}

/// The line on which the byte at this index is, counted from 1.
fn line_of(text: &[u8], index: usize) -> usize
    requires { index ≤ length text.now }
    ensures { result ≡ line_at text.now index }
{
    text[..index].iter().filter(|byte| **byte == b'\n').count() + 1
}
