//! Responses of the relay. The connection ends after each.

ghost use Rattle.std.specs.Prelude.{◌≡◌, ◌++◌, IfOk};
ghost use Rattle.http_messages.specs.ResponseParts.{parts_of, response_of};
ghost use Rattle.http_messages.specs.ResponseTexts.{response_text};

use http_messages::{ResponseHead, append_response};
use std::alloc::{AllocError, Global};

/// A response whose body is made of these parts, each of which is copied once.
pub(crate) fn make_response(
    alloc: Global,
    head: &ResponseHead<'_>,
    body: &[&[u8]],
) -> Result<Vec<u8>, AllocError>
    ensures { IfOk result (λ response. response.items ≡ response_text (response_of head.now body.now)) }
{
    let mut response = Vec::new(alloc);
    append_response(alloc, &mut response, head, body)?;
    Ok(response)
}

/// The response whose body is made of these three parts.
pub(crate) fn joined_response<'a>(
    alloc: Global,
    head: &ResponseHead<'_>,
    header: &'a [u8],
    body: &'a [u8],
    trailer: &'a [u8],
) -> Result<Vec<u8>, AllocError>
    ensures { IfOk result (λ response. response.items ≡ response_text (record {
      head = parts_of head.now;
      body = header.now ++ (body.now ++ trailer.now);
    })) }
{
    make_response(alloc, head, &[header, body, trailer])
}
