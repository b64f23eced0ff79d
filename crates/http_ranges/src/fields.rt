//! Whether the connection ends with a response.

ghost use Rattle.std.specs.Prelude.{◌≡◌, All, length, map};
ghost use Rattle.httparse.specs.Spans.{IsHeaderWithin, header_bytes};
ghost use Rattle.http_ranges.specs.Fields.{says_close};

use http_messages::is_same_name;
use httparse::spans::HeaderSpan;

/// Whether a field `Connection` says that the connection is closed after the response.
pub(crate) fn says_close(head: &[u8], headers: &[HeaderSpan]) -> bool
    requires { All (IsHeaderWithin (length head.now)) headers.now }
    ensures { result ≡ says_close (map (header_bytes head.now) headers.now) }
{
    for header in headers {
        if is_same_name(header.name.of(head), b"connection")
            && is_same_name(header.value.of(head), b"close")
        {
            return true;
        }
    }
    false
}
