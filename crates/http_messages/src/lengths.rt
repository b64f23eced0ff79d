//! What the fields of any head say of the body: whether it is coded, and its length.

ghost use Rattle.std.specs.Prelude.{◌≡◌, ◌<◌, ◌^◌, All, IfSome, length, map, true};
ghost use Rattle.std.specs.Char.{is_ascii_digit};
ghost use Rattle.std.specs.List.{list_all};
ghost use Rattle.std.specs.Str.Parse.{digits_value};
ghost use Rattle.httparse.specs.Spans.{IsHeaderWithin, header_bytes};
ghost use Rattle.http_messages.specs.Fields.{is_coded, is_length, number_of, stated_length};

use crate::limits::DIGIT_LIMIT;
use crate::named_fields::{has_field, only_value};
use httparse::spans::HeaderSpan;

/// Whether the body stands in another form than its own bytes: a field `Transfer-Encoding` (RFC 9112, section 6.1) or
/// `Content-Encoding` (RFC 9110, section 8.4) is there, whatever it says.
pub fn is_coded(head: &[u8], headers: &[HeaderSpan]) -> bool
    requires { All (IsHeaderWithin (length head.now)) headers.now }
    ensures { result ≡ is_coded (map (header_bytes head.now) headers.now) }
{
    has_field(head, headers, b"transfer-encoding") || has_field(head, headers, b"content-encoding")
}

/// The number of bytes that the only field `Content-Length` states (RFC 9112, section 6.2); `None` where there is no such
/// field, or several, or what it states isn't 1 to 19 digits.
pub fn stated_length(head: &[u8], headers: &[HeaderSpan]) -> Option<u64>
    requires { All (IsHeaderWithin (length head.now)) headers.now }
    ensures length { result ≡ stated_length (map (header_bytes head.now) headers.now) }
    ensures bound { IfSome result (λ n. n < 10 ^ 19) }
{
    number_of(only_value(head, headers, b"content-length")?)
}

/// The number that these bytes write in 1 to 19 decimal digits, as a field states a length (RFC 9112, section 6.2); `None`
/// where they are anything else. Zeros may come first. It takes no memory.
pub fn number_of(value: &[u8]) -> Option<u64>
    ensures number { result ≡ number_of value.now }
    ensures bound { IfSome result (λ n. n < 10 ^ 19) }
{
    if is_length(value) {
        Some(parse_length(value))
    } else {
        None
    }
}

/// Whether the value is a number of 1 to 19 digits.
pub(crate) fn is_length(value: &[u8]) -> bool
    ensures { result ≡ is_length value.now }
{
    !value.is_empty() && value.len() <= DIGIT_LIMIT && are_digits(value)
}

fn are_digits(value: &[u8]) -> bool
    ensures { result ≡ list_all is_ascii_digit value.now }
{
    value.iter().all(|byte| byte.is_ascii_digit())
}

/// The number that these digits write.
pub(crate) fn parse_length(value: &[u8]) -> u64
    requires { is_length value.now ≡ true }
    ensures value { result ≡ digits_value 10 value.now }
    ensures bound { result < 10 ^ 19 }
{
    let mut length = 0;
    for byte in value {
        length = length * 10 + u64::from(*byte - b'0');
    }
    length
}
