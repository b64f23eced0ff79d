//! Heads, and the files that they name.

ghost use Rattle.std.specs.Prelude.{◌≤◌, length};

use crate::pack_file::PackFile;
use node_pack::{ReadAt, ReadFault};
use pack_head::HeadFile;
use std::alloc::{AllocError, Global};
use std::cell::Cell;
use std::str;

/// How a head begins.
const FRONT: &[u8] = b"osm_mirror head ";

/// How many bytes a head can have at most: its first lines, and 65,535 with a length and a name of 255 bytes each.
const TEXT_LIMIT: u64 = 18_153_500;

/// The text of a head; none where the file doesn't begin as a head does, or is longer than any head. Nothing else is looked at.
///
/// Refused as the file refuses to be read.
pub fn head_text<F: ReadAt>(alloc: Global, file: &mut F) -> Result<Option<Vec<u8>>, ReadFault> {
    let size = file.size()?;
    if size < FRONT.len() as u64 || size > TEXT_LIMIT {
        return Ok(None);
    }
    let mut text = Vec::new(alloc);
    file.read_at(0, FRONT.len(), &mut text)?;
    if text.as_slice() != FRONT {
        return Ok(None);
    }
    text.clear();
    file.read_at(0, size as usize, &mut text)?;
    Ok(Some(text))
}

/// The places of the files that a head names, in its own folder, in their order.
pub fn places_beside(
    alloc: Global,
    head: &str,
    files: &[HeadFile<'_>],
) -> Result<Vec<Vec<u8>>, AllocError> {
    let mut places = Vec::new(alloc);
    for file in files {
        places.push(place_beside(alloc, head, file.name)?)?;
    }
    Ok(places)
}

/// The files at these places on this machine, not opened yet. What the system said of the call that failed last is left in `error`.
pub fn files_at<'a>(
    rt: &'a HostRuntime,
    places: &'a [Vec<u8>],
    error: &'a Cell<Option<i32>>,
) -> Result<Vec<PackFile<'a>>, AllocError> {
    let mut files = Vec::new(rt.alloc());
    for place in places {
        // (a head's names are ASCII, and its folder is in the words of the program)
        let path = str::from_utf8(place).unwrap_or("");
        files.push(PackFile::new(rt, path, error))?;
    }
    Ok(files)
}

/// The place of a file with this name in the folder of another one.
pub fn place_beside(alloc: Global, place: &str, name: &[u8]) -> Result<Vec<u8>, AllocError> {
    let place = place.as_bytes();
    let mut beside = place[..folder_len(place)].to_vec(alloc)?;
    beside.extend_from_slice(name)?;
    Ok(beside)
}

/// How many bytes of a place are its folder, with the slash at its end.
fn folder_len(place: &[u8]) -> usize
    ensures { result ≤ length place.now }
{
    match place.iter().rposition(|byte| *byte == b'/') {
        Some(slash) => slash + 1,
        None => 0,
    }
}
