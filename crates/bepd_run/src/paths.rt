//! Whether a folder of a configuration lies within another one, or the state or the page within a folder, or the page would take the place of another file.
use crate::failure::RunFailure;
use crate::files::read_front;
use crate::page::new_page_path;
use crate::probing::is_no_file;
use bep_messages::Text;
use node_config::{Config, ConfigFault, Key, Problem, TablePlace, check_page, check_paths};
use node_status::begins_as_page;
use std::alloc::{AllocError, Global};
use std::fs::Files;
use std::io::ErrorKind;

/// How many bytes of a file show whether it is a page.
const FRONT_BYTES: u64 = 1_024;

/// Fails where a folder lies within another one, or the state or the page within a folder, by their canonical paths; and where the page would take the place of the
/// configuration at this path, of the state, or of another file that is no page.
pub(crate) fn require_apart<R: Files>(
    rt: &R,
    alloc: Global,
    path: &str,
    config: &Config,
) -> Result<(), RunFailure> {
    let mut folders = Vec::new(alloc);
    for folder in config.folders.as_slice() {
        folders.push(canonical(rt, alloc, folder.path.as_str())?)?;
    }
    let state = canonical(rt, alloc, config.state.as_str())?;
    check_paths(folders.as_slice(), state.as_str())?;
    let Some(page) = &config.status else {
        return Ok(());
    };
    let path = canonical(rt, alloc, path)?;
    let page = canonical(rt, alloc, page.as_str())?;
    let new = new_page_path(alloc, page.as_str())?;
    for made in [page.as_str(), new.as_str()] {
        check_page(folders.as_slice(), path.as_str(), state.as_str(), made)?;
        require_page(rt, alloc, made)?;
    }
    Ok(())
}

// Fails where something is at the path that is no file, or a file that isn't empty and doesn't begin as a page does.
fn require_page<R: Files>(rt: &R, alloc: Global, path: &str) -> Result<(), RunFailure> {
    // (to open a pipe waits for who writes to it)
    if is_no_file(rt, path) {
        return Err(other_file());
    }
    match read_front(rt, alloc, path, FRONT_BYTES) {
        Ok(front) if front.is_empty() || begins_as_page(front.as_slice()) => Ok(()),
        Err(error) => match error.kind() {
            ErrorKind::NotFound | ErrorKind::NotADirectory => Ok(()),
            ErrorKind::OutOfMemory => Err(RunFailure::OutOfMemory),
            _ => Err(other_file()),
        },
        Ok(_) => Err(other_file()),
    }
}

fn other_file() -> RunFailure {
    RunFailure::Config(ConfigFault::BadKey {
        place: TablePlace::Node,
        key: Key::Status,
        problem: Problem::OtherFile,
    })
}

// The canonical path. Of one at which nothing is, as while a disk is away, it is that of the nearest directory above it, and then the rest.
fn canonical<R: Files>(rt: &R, alloc: Global, path: &str) -> Result<Text, RunFailure> {
    let root = if path.starts_with('/') { "/" } else { "." };
    let mut parts = Vec::new(alloc);
    for part in path.split('/') {
        if !part.is_empty() && part != "." {
            parts.push(part)?;
        }
    }
    for count in (0..=parts.len()).rev() {
        if let Some(found) = canonical_front(rt, alloc, root, parts.as_slice(), count)? {
            return Ok(found);
        }
    }
    Ok(Text::from_string(String::from_str(alloc, path)?))
}

// The canonical path of what so many of the parts lead to, and then the rest; none if nothing is there.
fn canonical_front<R: Files>(
    rt: &R,
    alloc: Global,
    root: &str,
    parts: &[&str],
    count: usize,
) -> Result<Option<Text>, RunFailure> {
    let (Some(above), Some(below)) = (parts.get(..count), parts.get(count..)) else {
        return Ok(None);
    };
    let above = extended(String::from_str(alloc, root)?, above)?;
    match rt.canonicalize(alloc, above.as_str()) {
        Ok(found) => Ok(Some(Text::from_string(extended(found.into_string(), below)?))),
        Err(error) if error.kind() == ErrorKind::OutOfMemory => Err(RunFailure::OutOfMemory),
        Err(_) => Ok(None),
    }
}

// The path of what these parts lead to from a directory.
fn extended(directory: String, parts: &[&str]) -> Result<String, AllocError> {
    let mut path = directory;
    for part in parts {
        if !path.ends_with('/') {
            path.push('/')?;
        }
        path.push_str(part)?;
    }
    Ok(path)
}
