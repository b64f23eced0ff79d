//! Whether a name is of a regular file.

use std::fs;

/// Whether the name is of a regular file, which can be read from any place on, as often as one likes; not of a pipe, a folder
/// or a device. A file that can't be looked at isn't one.
pub fn is_regular_file(rt: &HostRuntime, path: &str) -> bool {
    match fs::metadata(rt, path) {
        Ok(found) => found.is_file(),
        Err(_) => false,
    }
}
