//! A part of a text.

ghost use Rattle.std.specs.Prelude.{◌≡◌, slice_range};

/// The bytes from a place up to another one, as far as there are such bytes.
pub(crate) fn part(bytes: &[u8], from: usize, to: usize) -> &[u8]
    ensures { result.now ≡ slice_range bytes.now from to }
{
    let rest = &bytes[from.min(bytes.len())..];
    &rest[..to.saturating_sub(from).min(rest.len())]
}
