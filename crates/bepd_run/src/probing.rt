//! What is at a path, and whether files can be made there.
use std::alloc::{AllocError, Global};
use std::fs::{self, File, Files, OpenOptions};
use std::io::ErrorKind;
use std::os::unix::fs::FileTypeExt;

/// The name of a file that is made to see whether a directory may be written. It is a temporary one, which no scan records.
const PROBE: &str = ".syncthing.check.tmp";

/// Whether a directory is at the path, links followed.
pub(crate) fn is_directory<R: Files>(rt: &R, path: &str) -> bool {
    match fs::metadata(rt, path) {
        Ok(found) => found.is_dir(),
        Err(_) => false,
    }
}

/// Whether something else than a file is at the path, links followed.
pub(crate) fn is_no_file<R: Files>(rt: &R, path: &str) -> bool {
    match fs::metadata(rt, path) {
        Ok(found) => !found.is_file(),
        Err(_) => false,
    }
}

/// Whether a file can be made in the directory. It is removed then.
pub(crate) fn can_be_written<R: Files>(
    rt: &R,
    alloc: Global,
    directory: &str,
) -> Result<bool, AllocError> {
    let path = format!(in alloc; "{directory}/{PROBE}")?;
    let mut options = OpenOptions::new();
    options.write(true).create_new(true);
    match options.open(rt, path.as_str()) {
        Ok(_made) => {
            let _ = fs::remove_file(rt, path.as_str());
            Ok(true)
        }
        Err(error) => Ok(error.kind() == ErrorKind::AlreadyExists),
    }
}

/// Whether something else than a socket is at the path.
pub(crate) fn is_taken<R: Files>(rt: &R, path: &str) -> bool {
    match fs::symlink_metadata(rt, path) {
        Ok(found) => !found.file_type().is_socket(),
        Err(_) => false,
    }
}
