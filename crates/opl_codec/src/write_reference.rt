//! References and numbers to text.

ghost use Rattle.std.specs.Prelude.{◌≡◌, ◌++◌, length, take, OnOk, OnErr};
ghost use Rattle.std.specs.Fmt.{signed_decimal};
ghost use Rattle.osm_model.specs.CanonicalLine.{reference_text};

use itoa::Buffer;
use osm_model::Ref;
use std::alloc::AllocError;

/// Appends the letter of a kind, and an id, as `n1`: the first field of an object's line (Osmium's OPL manual). Where
/// memory is refused, the bytes that were there before are still its first ones.
pub fn append_reference(reference: Ref, out: &mut Vec<u8>) -> Result<(), AllocError>
    ensures ok { OnOk result (out.new.items ≡ out.old.items ++ reference_text reference) }
    ensures err { OnErr result (take (length out.old.items) out.new.items ≡ out.old.items) }
{
    out.push(reference.kind.letter())?;
    append_number(reference.id, out)
}

/// Appends a number in decimal.
pub(crate) fn append_number(number: i64, out: &mut Vec<u8>) -> Result<(), AllocError>
    ensures ok { OnOk result (out.new.items ≡ out.old.items ++ signed_decimal number) }
    ensures err { OnErr result (out.new.items ≡ out.old.items) }
{
    out.extend_from_slice(Buffer::new().format(number).as_bytes())
}
