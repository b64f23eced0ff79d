//! The range that a response is of.

ghost use Rattle.std.specs.Prelude.{◌≡◌, ◌==◌, ◌<◌, IfSome, length, position};
ghost use Rattle.http_messages.specs.Fields.{number_of};
ghost use Rattle.http_ranges.specs.Ranges.{by_dash, by_slash, of_numbers, parts_at, range_of};
ghost use Rattle.http_ranges.specs.internal.Told.{told_parts};

use http_messages::number_of;

/// What a field `Content-Range` says: the first and the last byte of the range, and how many bytes the file has.
#[derive(Clone, Copy, Debug, PartialEq, Eq)]
pub(crate) struct ContentRange {
    pub(crate) first: u64,
    pub(crate) last: u64,
    pub(crate) size: u64,
}

/// What the value of a field `Content-Range` says, as `bytes 0-99/1000`.
#[tactic(auto, unfolding(crate::specs::Ranges::range_of))]
pub(crate) fn read_content_range(value: &[u8]) -> Option<ContentRange>
    ensures { result ≡ range_of value.now }
{
    if !value.starts_with(b"bytes ") {
        return None;
    }
    read_from_first(&value[6..])
}

/// The same, without the unit.
fn read_from_first(text: &[u8]) -> Option<ContentRange>
    ensures { result ≡ by_dash (parts_at 45 text.now) }
{
    let (first, rest) = split_at_byte(text, b'-')?;
    read_from_last(first, rest)
}

/// The same, of the first number and of what comes after it.
fn read_from_last(first: &[u8], rest: &[u8]) -> Option<ContentRange>
    ensures { result ≡ by_slash first.now (parts_at 47 rest.now) }
{
    let (last, size) = split_at_byte(rest, b'/')?;
    read_numbers(first, last, size)
}

/// The range of these numbers.
fn read_numbers(first: &[u8], last: &[u8], size: &[u8]) -> Option<ContentRange>
    ensures { result ≡ of_numbers (number_of first.now) (number_of last.now) (number_of size.now) }
{
    let first = number_of(first)?;
    let last = number_of(last)?;
    let size = number_of(size)?;
    Some(ContentRange { first, last, size })
}

/// What comes before the first such byte, and what comes after it.
fn split_at_byte(bytes: &[u8], wanted: u8) -> Option<(&[u8], &[u8])>
    ensures { told_parts result ≡ parts_at wanted bytes.now }
{
    let place = place_of(bytes, wanted)?;
    Some((&bytes[..place], &bytes[place + 1..]))
}

/// Where the first such byte stands.
fn place_of(bytes: &[u8], wanted: u8) -> Option<usize>
    ensures place { result ≡ position (λ b. b == wanted) bytes.now }
    ensures within { IfSome result (λ place. place < length bytes.now) }
{
    bytes.iter().position(|byte| *byte == wanted)
}
