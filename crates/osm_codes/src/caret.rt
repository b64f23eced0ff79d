//! A place in a text, shown under its line.

use std::alloc::{AllocError, Global};

/// How many bytes of a line are shown on each side of a place.
const SIDE: usize = 40;

/// The line of a text in which a byte stands, and a line with a caret below that byte; both end with a line feed. Of a
/// long line only what is near the place is shown. A byte that isn't a printable ASCII character is shown as `?`, so that
/// nothing of the text reaches a terminal but what it shows.
pub fn caret_lines(alloc: Global, text: &[u8], byte: usize) -> Result<String, AllocError> {
    let (before, after) = text.split_at(byte.min(text.len()));
    let before = last_line(before);
    let before = &before[before.len().saturating_sub(SIDE)..];
    let after = first_line(after);
    let after = &after[..after.len().min(SIDE)];
    let mut lines = String::new(alloc);
    push_shown(&mut lines, before)?;
    push_shown(&mut lines, after)?;
    lines.push('\n')?;
    for _ in before {
        lines.push(' ')?;
    }
    lines.push_str("^\n")?;
    Ok(lines)
}

/// What follows the last line feed.
fn last_line(text: &[u8]) -> &[u8] {
    match text.iter().rposition(|byte| *byte == b'\n') {
        Some(at) => &text[at + 1..],
        None => text,
    }
}

/// What stands before the first line feed.
fn first_line(text: &[u8]) -> &[u8] {
    match text.iter().position(|byte| *byte == b'\n') {
        Some(at) => &text[..at],
        None => text,
    }
}

/// Appends bytes as they are shown.
fn push_shown(lines: &mut String, bytes: &[u8]) -> Result<(), AllocError> {
    for byte in bytes {
        let is_shown = *byte == b' ' || byte.is_ascii_graphic();
        lines.push(if is_shown { *byte as char } else { '?' })?;
    }
    Ok(())
}
