//! The content of a line, and lines that say nothing.

ghost use Rattle.std.specs.Prelude.{◌≡◌, ◌≤◌, length};
ghost use Rattle.opl_codec.specs.LineChanges.{is_skipped};
ghost use Rattle.opl_codec.specs.LineFields.{content};
ghost use Rattle.opl_codec.specs.declared.line.TheConstants.{LONGEST_LINE};

use crate::cut_text::is_at;
use crate::line_field::blanks_len;

/// A line without the CR at its end.
pub(crate) fn content_of(line: &[u8]) -> &[u8]
    ensures { result.now ≡ content line.now }
{
    if line.is_empty() {
        return line;
    }
    let last = line.len() - 1;
    if line[last] == b'\r' {
        return &line[..last];
    }
    line
}

/// A text without the CR at its end.
pub(crate) fn text_content(text: &str) -> &str
    ensures { result.now ≡ content text.now }
{
    match text.strip_suffix('\r') {
        Some(content) => content,
        None => text,
    }
}

/// Whether a line that isn't too long is skipped: it has only blanks, or it is a comment.
pub(crate) fn is_skipped(line: &[u8]) -> bool
    requires { length line.now ≤ LONGEST_LINE }
    ensures { result ≡ is_skipped line.now }
{
    if is_at(line, 0, b'#') {
        return true;
    }
    let content = content_of(line);
    blanks_len(content) == content.len()
}
