//! Fields that are looked for by their names.

ghost use Rattle.std.specs.Prelude.{◌≡◌, All, length, map};
ghost use Rattle.std.specs.List.{list_any};
ghost use Rattle.std.specs.Option.{option_copied};
ghost use Rattle.httparse.specs.Spans.{IsHeaderWithin, header_bytes};
ghost use Rattle.http_messages.specs.Fields.{is_named, only, same_name, values_named};

use httparse::spans::HeaderSpan;

/// Whether one of a head's fields has this name, letters of either case being alike (RFC 9110, section 5.1).
pub(crate) fn has_field(head: &[u8], headers: &[HeaderSpan], name: &[u8]) -> bool
    requires { All (IsHeaderWithin (length head.now)) headers.now }
    ensures { result ≡ list_any (is_named name.now) (map (header_bytes head.now) headers.now) }
{
    for header in headers {
        if is_same_name(header.name.of(head), name) {
            return true;
        }
    }
    false
}

/// The value of the only field of this name, without the spaces and tabs around it; `None` where no field has the name, or
/// several have.
pub fn only_value<'a>(head: &'a [u8], headers: &[HeaderSpan], name: &[u8]) -> Option<&'a [u8]>
    requires { All (IsHeaderWithin (length head.now)) headers.now }
    ensures { option_copied result
        ≡ only (values_named name.now (map (header_bytes head.now) headers.now)) }
{
    let mut found: Option<&'a [u8]> = None;
    for header in headers {
        if is_same_name(header.name.of(head), name) {
            if found.is_some() {
                return None;
            }
            found = Some(header.value.of(head));
        }
    }
    found
}

/// Whether two names of fields, or two words in their values, are the same, letters of either case being alike.
pub fn is_same_name(name: &[u8], wanted: &[u8]) -> bool
    ensures { result ≡ same_name name.now wanted.now }
{
    name.eq_ignore_ascii_case(wanted)
}
