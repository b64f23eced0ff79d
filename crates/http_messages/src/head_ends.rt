//! Where the head of a request begins and ends.

ghost use Rattle.std.specs.Prelude.{◌≡◌, None, take};
ghost use Rattle.http_messages.specs.HeadEnds.{empty_line, head_length, line_feeds, skip_breaks};

use memchr::memchr;

/// The length of the head at the front of these bytes, its empty line included; `None` where no head ends in them. The
/// first `scanned` bytes are known to hold no complete head; only the last two of them are looked at again. Linear in
/// the other bytes; it takes no memory.
pub fn head_end(bytes: &[u8], scanned: usize) -> Option<usize>
    requires { head_length (take scanned bytes.now) ≡ None }
    ensures { result ≡ head_length bytes.now }
{
    let mut at = scanned.saturating_sub(2).min(bytes.len());
    while let Some(len) = memchr(b'\n', &bytes[at..]) {
        at += len + 1;
        let line = empty_line_at(&bytes[at..]);
        if line > 0 {
            return Some(at + line);
        }
    }
    None
}

/// The length of the empty line at the front of these bytes, LF or CR LF; 0 where there is none.
fn empty_line_at(bytes: &[u8]) -> usize
    ensures { result ≡ empty_line bytes.now }
{
    match bytes {
        [b'\n', ..] => 1,
        [b'\r', b'\n', ..] => 2,
        _ => 0,
    }
}

/// The number of line feeds.
pub(crate) fn count_line_feeds(head: &[u8]) -> usize
    ensures { result ≡ line_feeds head.now }
{
    head.iter().filter(|byte| **byte == b'\n').count()
}

/// The bytes without the CR and LF before them.
pub fn without_breaks(bytes: &[u8]) -> &[u8]
    ensures { result.now ≡ skip_breaks bytes.now }
{
    let mut rest = bytes;
    while let [b'\r' | b'\n', later @ ..] = rest {
        rest = later;
    }
    rest
}
