//! Relative paths of a configuration, resolved against the directory of the configuration file.
ghost use Rattle.std.specs.Prelude.{◌≡◌, ◌++◌, IfOk, string_bytes};
ghost use Rattle.bepd_run.specs.Placed.{directory_of, placed_path};

use bep_messages::{Items, Text};
use node_config::Config;
use std::alloc::{AllocError, Global};

/// The configuration of the file at a path, with the paths of its folders and its state as a run takes them.
pub(crate) fn placed_config(
    alloc: Global,
    config_path: &str,
    config: Config,
) -> Result<Config, AllocError> {
    let Config {
        device,
        name,
        state,
        status,
        folders,
        peers,
    } = config;
    let state = placed(alloc, config_path, state.as_str())?;
    let status = match status {
        Some(page) => Some(placed(alloc, config_path, page.as_str())?),
        None => None,
    };
    let mut all = Items::new(alloc);
    for folder in folders.into_vec() {
        let mut folder = folder;
        folder.path = placed(alloc, config_path, folder.path.as_str())?;
        all.push(folder)?;
    }
    Ok(Config {
        device,
        name,
        state,
        status,
        folders: all,
        peers,
    })
}

/// A path of the configuration of the file at a path: one that is relative begins at the directory of that file, and an absolute one is as it is. Fails only
/// if out of memory. O(n).
pub(crate) fn placed(alloc: Global, config_path: &str, path: &str) -> Result<Text, AllocError>
    ensures { IfOk result (λ placed. placed ≡ placed_path config_path.now path.now) }
{
    if path.as_bytes().starts_with(b"/") {
        return Text::from_str(alloc, path);
    }
    Ok(Text::from_string(beside(alloc, config_path, path)?))
}

// The path from the directory of a file on.
fn beside(alloc: Global, file: &str, path: &str) -> Result<String, AllocError>
    ensures { IfOk result (λ placed. string_bytes placed ≡ directory_of file.now ++ path.now) }
{
    match file.rsplit_once('/') {
        Some((directory, _)) => format!(in alloc; "{directory}/{path}"),
        None => String::from_str(alloc, path),
    }
}
