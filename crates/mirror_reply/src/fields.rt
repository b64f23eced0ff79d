//! What the fields of a head say of the body's length.

ghost use Rattle.std.specs.Prelude.{◌≡◌, ◌<◌, ◌^◌, All, IfSome, length, map};
ghost use Rattle.httparse.specs.Spans.{IsHeaderWithin, header_bytes};
ghost use Rattle.mirror_reply.specs.Lengths.{told_length};

use http_messages::{is_coded, stated_length};
use httparse::spans::HeaderSpan;

/// The length of the body (RFC 9112, section 6.3); `None` where the fields don't say it, or say that the body is coded.
pub(crate) fn body_len(head: &[u8], headers: &[HeaderSpan]) -> Option<u64>
    requires { All (IsHeaderWithin (length head.now)) headers.now }
    ensures told { result ≡ told_length (map (header_bytes head.now) headers.now) }
    ensures bound { IfSome result (λ len. len < 10 ^ 19) }
{
    if is_coded(head, headers) {
        return None;
    }
    stated_length(head, headers)
}
