//! The root line at the end of a change file.

ghost use Rattle.std.specs.List.{AllByRecursion};
ghost use Rattle.std.specs.Prelude.{◌≡◌, ◌≤◌, ◌↔◌, ◌∷◌, ◌++◌, [], ℕ, IfOk, IsTrue, List, OnOk, length, take};
ghost use Rattle.byte_io.specs.Pieces.{Lacks};
ghost use Rattle.osm_model.specs.Bytes.{line_feed};
ghost use Rattle.osm_changes.specs.AnnouncedChanges.{HasRootLine, IsEnded, IsWithLineEnd, IsWithoutRootLine};

use std::alloc::{AllocError, Global};

/// The text with `# root ` and this line at its end, in place of the root line that it ended with: a last line, but for empty
/// ones, that begins with `# root `. A text that lacks the line feed at its end gets it.
pub(crate) fn with_root_line(text: Vec<u8>, line: &[u8]) -> Result<Vec<u8>, AllocError>
    ensures { IfOk result (λ written. HasRootLine text.items line.now written.items) }
{
    let mut text = text;
    let kept = kept_len(&text);
    text.truncate(kept);
    end_line(&mut text)?;
    text.extend_from_slice(b"# root ")?;
    text.extend_from_slice(line)?;
    Ok(text)
}

/// Puts a line feed at the end of a text that lacks it. A text without bytes lacks none.
fn end_line(text: &mut Vec<u8>) -> Result<(), AllocError>
    ensures { OnOk result (IsWithLineEnd text.old.items text.new.items) }
{
    if is_ended(text) {
        return Ok(());
    }
    text.push(b'\n')?;
    Ok(())
}

/// Whether a text is empty, or its last line has its line feed.
fn is_ended(text: &[u8]) -> bool
    ensures { IsTrue result ↔ IsEnded text.now }
{
    text.is_empty() || text.ends_with(b"\n")
}

/// How many bytes of a text come before the root line that it ends with: all, where it ends with none.
fn kept_len(text: &[u8]) -> usize
    ensures { IsWithoutRootLine text.now (take result text.now) }
{
    let lines = without_line_feeds(text);
    let kept = without_last_line(lines);
    if lines[kept.len()..].starts_with(b"# root ") {
        kept.len()
    } else {
        text.len()
    }
}

/// The text without the line feeds at its end.
fn without_line_feeds(text: &[u8]) -> &[u8]
    ensures parts { (after : List ℕ) × (text.now ≡ result.now ++ after)
        × AllByRecursion (λ byte. byte ≡ line_feed) after }
    ensures all { (front : List ℕ) → ¬ (result.now ≡ front ++ line_feed ∷ []) }
{
    let mut left = text;
    while let Some(shorter) = left.strip_suffix(b"\n") {
        left = shorter;
    }
    left
}

/// The text without what follows its last line feed.
fn without_last_line(text: &[u8]) -> &[u8]
    ensures parts { (line : List ℕ) × (text.now ≡ result.now ++ line) × Lacks line_feed line }
    ensures ended { IsEnded result.now }
    ensures fits { length result.now ≤ length text.now }
{
    let mut left = text;
    while let Some((byte, shorter)) = left.split_last() {
        if *byte == b'\n' {
            break;
        }
        left = shorter;
    }
    left
}
