//! The header of a pack.

ghost use Rattle.std.specs.Prelude.{◌≡◌, ◌<◌, ◌≤◌, MatchOption, length};
ghost use Rattle.node_pack.specs.Headers.{fields_at, header_at, sized};

use crate::fault::PackFault;
use crate::place::Place;
use tree_node::Digest;

/// How many bytes a header has.
pub const HEADER_LEN: usize = 60;

/// `OSMK`, as a number of four bytes.
pub const MAGIC: u32 = 0x4f53_4d4b;

/// The version 1 in two bytes, and two bytes that are zero, as a number of four bytes.
pub const VERSION: u32 = 0x0001_0000;

/// The version 2, that of a further file, in the same form.
pub const FURTHER_VERSION: u32 = 0x0002_0000;

/// What the header of a pack or of a further file says.
#[derive(Clone, Copy, Debug, PartialEq, Eq)]
pub struct Header {
    /// The root of the publication.
    pub root: Digest,
    /// The length of the file in bytes, with the header: at most 2^48.
    pub size: u64,
    /// Where the record of the manifest stands, by the number of its file and the offset there.
    pub manifest: Place,
}

/// The header of a file of this many bytes that begins with these, or the first thing that is at fault.
#[tactic(auto, unfolding(crate::specs::Headers::header_at))]
pub(crate) fn read_header(front: &[u8], size: u64) -> Result<Header, PackFault>
    ensures { result ≡ header_at front.now size }
{
    let Some((magic, rest)) = front.split_first_chunk() else {
        return Err(PackFault::NotAPack);
    };
    if u32::from_be_bytes(*magic) != MAGIC {
        return Err(PackFault::NotAPack);
    }
    let Some((version, rest)) = rest.split_first_chunk() else {
        return Err(PackFault::Cut);
    };
    if u32::from_be_bytes(*version) != VERSION {
        return Err(PackFault::OtherVersion);
    }
    match read_fields(rest) {
        Some(header) => for_size(header, size),
        None => Err(PackFault::Cut),
    }
}

/// The header, if it states that the file has this many bytes.
fn for_size(header: Header, size: u64) -> Result<Header, PackFault>
    ensures { result ≡ sized header size }
{
    if size < header.size {
        return Err(PackFault::Cut);
    }
    if header.size < size {
        return Err(PackFault::BytesAfter);
    }
    Ok(header)
}

/// What the fields after the version say; none where they are cut short.
fn read_fields(bytes: &[u8]) -> Option<Header>
    ensures { MatchOption result (length bytes.now < 52)
        (λ header. (52 ≤ length bytes.now) × (header ≡ fields_at bytes.now)) }
{
    let (root, rest) = bytes.split_first_chunk()?;
    let (size, rest) = rest.split_first_chunk()?;
    let (manifest, _) = Place::split(rest)?;
    Some(Header {
        root: Digest(*root),
        size: u64::from_be_bytes(*size),
        manifest,
    })
}
