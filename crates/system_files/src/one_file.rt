//! Whether two names are of one file.

use std::os::unix::fs::MetadataExt;
use std::path::Path;
use std::{fs, io};

/// What a name is of, as far as it says which file is written.
#[derive(Clone, Copy, Drop, PartialEq, Eq)]
struct Place<'a> {
    /// The device and the number of the file, or of the folder in which there is none of this name.
    device: u64,
    number: u64,
    /// The name of a file that isn't there yet.
    name: Option<&'a str>,
}

/// Whether a regular file, or one that isn't there yet, has both names. Pipes, terminals and the like may be named twice.
pub fn are_one_file(rt: &HostRuntime, one: &str, other: &str) -> bool {
    match (place_of(rt, one), place_of(rt, other)) {
        (Some(one), Some(other)) => one == other,
        _ => false,
    }
}

/// What the name is of; none where it is no regular file, and where the system doesn't say.
fn place_of<'a>(rt: &HostRuntime, path: &'a str) -> Option<Place<'a>> {
    match fs::metadata(rt, path) {
        Ok(found) if found.is_file() => Some(Place {
            device: found.dev(),
            number: found.ino(),
            name: None,
        }),
        Ok(_) => None,
        Err(_) => new_place(rt, path).ok().flatten(),
    }
}

/// The folder in which a file of this name is to be made, and its name there.
fn new_place<'a>(rt: &HostRuntime, path: &'a str) -> io::Result<Option<Place<'a>>> {
    let path = Path::new(path);
    let (Some(folder), Some(name)) = (path.parent(), path.file_name()) else {
        return Ok(None);
    };
    let folder = if folder.as_str().is_empty() {
        Path::new(".")
    } else {
        folder
    };
    let found = fs::metadata(rt, folder)?;
    Ok(Some(Place {
        device: found.dev(),
        number: found.ino(),
        name: Some(name),
    }))
}
