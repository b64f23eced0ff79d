//! Names of files.

ghost use Rattle.std.specs.Prelude.{◌≡◌, ◌↔◌, IsTrue};
ghost use Rattle.std.specs.List.{list_all};
ghost use Rattle.pack_head.specs.Names.{IsHeadName, is_name_byte};

use crate::limits::NAME_LIMIT;

/// Whether a head can name a file so: 1 to 255 bytes, each a letter, a digit, `.`, `_` or `-` in ASCII, the first one no `.`. Such a
/// name is one of the head's own folder, and can stand as a segment of a URL. It takes no memory.
pub fn is_head_name(name: &[u8]) -> bool
    ensures { IsTrue result ↔ IsHeadName name.now }
{
    match name.first() {
        None | Some(b'.') => false,
        Some(_) => name.len() <= NAME_LIMIT && are_name_bytes(name),
    }
}

fn are_name_bytes(name: &[u8]) -> bool
    ensures { result ≡ list_all is_name_byte name.now }
{
    name.iter().all(|byte| is_name_byte(*byte))
}

fn is_name_byte(byte: u8) -> bool
    ensures { result ≡ is_name_byte byte }
{
    byte.is_ascii_alphanumeric() || byte == b'.' || byte == b'_' || byte == b'-'
}
