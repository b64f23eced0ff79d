//! What asks for a range of a file.

ghost use Rattle.std.specs.Prelude.{◌≡◌, IfOk};
ghost use Rattle.std.specs.Fmt.{decimal};
ghost use Rattle.std.specs.String.{string_bytes};
ghost use Rattle.http_ranges.specs.Requests.{range_text, request_text};

use crate::address::Address;
use crate::byte_range::ByteRange;
use std::alloc::{AllocError, Global};

/// The request that asks for a range of a file. The connection stays open.
///
/// Refused only where memory runs out.
pub fn range_request(
    alloc: Global,
    address: &Address<'_>,
    range: ByteRange,
) -> Result<Vec<u8>, AllocError>
    ensures { IfOk result
        (λ request. request.items ≡ request_text address.now.host.now address.now.path.now range) }
{
    let numbers = range_text(alloc, range)?;
    let mut text = Vec::new(alloc);
    text.extend_from_slice(b"GET ")?;
    text.extend_from_slice(address.path)?;
    text.extend_from_slice(b" HTTP/1.1\r\nHost: ")?;
    text.extend_from_slice(address.host)?;
    text.extend_from_slice(b"\r\nRange: bytes=")?;
    text.extend_from_slice(numbers.as_bytes())?;
    text.extend_from_slice(b"\r\nAccept-Encoding: identity\r\n\r\n")?;
    Ok(text)
}

/// The range as it stands in a field `Range`.
fn range_text(alloc: Global, range: ByteRange) -> Result<String, AllocError>
    ensures { IfOk result (λ text. string_bytes text ≡ range_text range) }
{
    let mut text = number_text(alloc, range.first)?;
    let last = number_text(alloc, range.last)?;
    text.push_str("-")?;
    text.push_str(&last)?;
    Ok(text)
}

fn number_text(alloc: Global, number: u64) -> Result<String, AllocError>
    ensures { IfOk result (λ text. string_bytes text ≡ decimal number) }
{
    format!(in alloc; "{number}")
}
