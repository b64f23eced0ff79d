//! How far a text goes.

ghost use Rattle.std.specs.Prelude.{◌≡◌, IfErr, MatchResult, OnOk};
ghost use Rattle.opl_codec.specs.Texts.{is_free, BadEscapeIn, IsText};
ghost use Rattle.opl_codec.specs.ValueFaults.{TextFault};
ghost use Rattle.opl_codec.specs.internal.TextParts.{IsTextFront};

use crate::escape::read_escape;
use crate::value_fault::ValueFault;

/// How far a text goes: just so many bytes at the beginning are a text, and no text goes on after
/// them. An error is the place of a `%` that begins no escape; what stands before it is a text.
pub(crate) fn text_len(bytes: &[u8]) -> Result<usize, usize>
    ensures { MatchResult result (λ len. IsTextFront bytes.now len)
        (λ at. BadEscapeIn bytes.now at) }
{
    let mut len = 0;
    while len < bytes.len() {
        let byte = bytes[len];
        if is_free(byte) {
            len += 1;
        } else if byte == b'%' {
            let Some((_, digits)) = read_escape(&bytes[len + 1..]) else {
                return Err(len);
            };
            len += digits + 2;
        } else {
            return Ok(len);
        }
    }
    Ok(len)
}

/// That the bytes are a text, to the last.
pub(crate) fn check_text(bytes: &[u8]) -> Result<(), ValueFault>
    ensures text { OnOk result (IsText bytes.now) }
    ensures refused { IfErr result (λ fault. TextFault bytes.now fault) }
{
    match text_len(bytes) {
        Ok(len) if len == bytes.len() => Ok(()),
        Ok(_) => Err(ValueFault::Form),
        Err(at) => Err(ValueFault::Escape(at)),
    }
}

/// Whether the byte stands for itself.
fn is_free(byte: u8) -> bool
    ensures { result ≡ is_free byte }
{
    !matches!(byte, 0 | b'\t' | b'\n' | b'\r' | b' ' | b'%' | b',' | b'=')
}
