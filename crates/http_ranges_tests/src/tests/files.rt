//! Files, and the responses that give their ranges.

use http_ranges::Address;
use std::alloc::{AllocError, Global};

/// Where the file is.
pub(crate) const ADDRESS: Address<'static> = Address {
    host: b"files.example",
    path: b"/a.pack",
};

/// A file of so many bytes, no two of which in a row are the same.
pub(crate) fn file(alloc: Global, len: u32) -> Result<Vec<u8>, AllocError> {
    let mut bytes = Vec::new(alloc);
    for place in 0..len {
        bytes.push((place % 251) as u8)?;
    }
    Ok(bytes)
}

/// Appends the response with the bytes of a file from the first one up to the end, which isn't one of them.
pub(crate) fn append_response(
    alloc: Global,
    output: &mut Vec<u8>,
    file: &[u8],
    first: usize,
    end: usize,
) -> Result<(), AllocError> {
    let end = end.min(file.len());
    let first = first.min(end);
    let size = file.len();
    let len = end - first;
    let last = end.saturating_sub(1);
    let head = format!(in alloc;
        "HTTP/1.1 206 Partial Content\r\nContent-Range: bytes {first}-{last}/{size}\r\nContent-Length: {len}\r\n\r\n"
    )?;
    output.extend_from_slice(head.as_bytes())?;
    output.extend_from_slice(&file[first..end])
}
