//! The fields of a line, one after the other.

ghost use Rattle.std.specs.Prelude.{◌≡◌, ◌≤◌, MatchOption, length, take, drop};
ghost use Rattle.opl_codec.specs.LineFields.{is_blank};
ghost use Rattle.opl_codec.specs.internal.FieldCuts.{AreBlanks, HasNoBlank, StartsBlank, StartsField, IsNextField};

/// The next field of a line, and what follows it.
#[derive(Clone, Copy)]
pub(crate) struct NextField<'a> {
    /// How many blanks stand before it.
    pub(crate) gap: usize,
    /// The field, at least one byte and none of them a blank.
    pub(crate) field: &'a str,
    /// What follows it: nothing, or text that begins with a blank.
    pub(crate) rest: &'a str,
}

/// The next field of this text; `None` where it has but blanks.
pub(crate) fn next_field(text: &str) -> Option<NextField<'_>>
    ensures { MatchOption result (AreBlanks text.now)
        (λ next. IsNextField text.now next.gap next.field.now next.rest.now) }
{
    let gap = blanks_len(text.as_bytes());
    if gap == text.len() {
        return None;
    }
    let after = &text[gap..];
    let len = field_len(after.as_bytes());
    Some(NextField {
        gap,
        field: &after[..len],
        rest: &after[len..],
    })
}

/// The number of bytes before the first that is no blank.
pub(crate) fn blanks_len(bytes: &[u8]) -> usize
    ensures within { result ≤ length bytes.now }
    ensures blanks { AreBlanks (take result bytes.now) }
    ensures stop { StartsField (drop result bytes.now) }
{
    for (i, byte) in bytes.iter().enumerate() {
        if !is_blank(*byte) {
            return i;
        }
    }
    bytes.len()
}

/// The number of bytes before the first blank.
fn field_len(bytes: &[u8]) -> usize
    ensures within { result ≤ length bytes.now }
    ensures field { HasNoBlank (take result bytes.now) }
    ensures stop { StartsBlank (drop result bytes.now) }
{
    for (i, byte) in bytes.iter().enumerate() {
        if is_blank(*byte) {
            return i;
        }
    }
    bytes.len()
}

/// Whether the byte separates fields: a space or a tab.
fn is_blank(byte: u8) -> bool
    ensures { result ≡ is_blank byte }
{
    byte == b' ' || byte == b'\t'
}
