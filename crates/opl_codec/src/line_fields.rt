//! The fields of a line: the name of its object, and what its further fields say.

ghost use Rattle.std.specs.Prelude.{◌≡◌, ◌≢◌, ◌≤◌, length, IfOk, IfErr};
ghost use Rattle.osm_model.specs.CanonicalLine.{kind_letter};
ghost use Rattle.opl_codec.specs.Fields.{letter_of};
ghost use Rattle.opl_codec.specs.LineFields.{content};
ghost use Rattle.opl_codec.specs.LineFaults.{StandsAt, HasName};
ghost use Rattle.opl_codec.specs.internal.LineReads.{IsNamed, AreRead};
ghost use Rattle.opl_codec.specs.declared.cause.OplCause.TheVariants as OplCause;
ghost use Rattle.opl_codec.specs.declared.line.TheConstants.{LONGEST_LINE};

use crate::cause::OplCause;
use crate::fault::OplFault;
use crate::kind_letter::kind_of;
use crate::line_field::next_field;
use crate::line_parts::LineParts;
use crate::number::read_number;
use osm_model::Ref;
use std::alloc::Global;

/// The object that a line names, and what its further fields say; the text is the line's content.
pub(crate) fn read_parts(
    alloc: Global,
    line: &[u8],
    text: &str,
) -> Result<(Ref, LineParts), OplFault>
    requires of_line { text.now ≡ content line.now }
    requires short { length line.now ≤ LONGEST_LINE }
    ensures read { IfOk result (λ p. AreRead text.now p.0 p.1) }
    ensures begins { IfOk result (λ p. letter_of line.now ≡ kind_letter p.0.kind) }
    ensures refused { IfErr result (λ fault. StandsAt line.now fault.cause fault.byte) }
    ensures memory { IfErr result (λ fault. fault.cause ≡ OplCause.Memory → HasName line.now) }
{
    let (name, mut left) = read_name(line, text)?;
    let mut parts = LineParts::new();
    while let Some(next) = next_field(left) {
        let byte = text.len() - left.len() + next.gap;
        parts.take(alloc, name.kind, next.field, byte)?;
        left = next.rest;
    }
    Ok((name, parts))
}

/// The object that a line names, and what follows its name; the text is the line's content.
fn read_name<'a>(line: &[u8], text: &'a str) -> Result<(Ref, &'a str), OplFault>
    requires { text.now ≡ content line.now }
    ensures read { IfOk result (λ p. IsNamed text.now p.0 p.1.now) }
    ensures begins { IfOk result (λ p. letter_of line.now ≡ kind_letter p.0.kind) }
    ensures real { IfErr result (λ fault. fault.cause ≢ OplCause.Memory) }
    ensures refused { IfErr result (λ fault. StandsAt line.now fault.cause fault.byte) }
{
    let unknown = OplFault {
        cause: OplCause::UnknownObject,
        byte: 0,
    };
    let Some(first) = next_field(text) else {
        return Err(unknown);
    };
    if first.gap != 0 {
        return Err(unknown);
    }
    let [letter, digits @ ..] = first.field.as_bytes() else {
        return Err(unknown);
    };
    let Some(kind) = kind_of(*letter) else {
        return Err(unknown);
    };
    match read_number(digits) {
        Some(id) => Ok((Ref { kind, id }, first.rest)),
        None => Err(OplFault {
            cause: OplCause::BadId,
            byte: 1,
        }),
    }
}
