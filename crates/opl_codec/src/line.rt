//! One line to a change.

ghost use Rattle.std.specs.Prelude.{◌≡◌, ◌≢◌, ℕ, List, IfOk, OnOk, IfErr, MatchOption, MatchResult, Some, None, Ok};
ghost use Rattle.std.specs.Str.{IsUtf8};
ghost use Rattle.opl_codec.specs.LineChanges.{IsSkipped, Spells, SpellsParts};
ghost use Rattle.opl_codec.specs.LineFields.{content};
ghost use Rattle.opl_codec.specs.LineFaults.{StandsAt, BeginsRight};
ghost use Rattle.opl_codec.specs.declared.change.Change.{Change};
ghost use Rattle.opl_codec.specs.declared.cause.OplCause.TheVariants as OplCause;

use crate::cause::OplCause;
use crate::change::Change;
use crate::fault::OplFault;
use crate::line_content::{is_skipped, text_content};
use crate::line_fields::read_parts;
use crate::line_object::object_of;
use crate::line_parts::LineParts;
use osm_model::Ref;
use simdutf8::compat::from_utf8;
use std::alloc::Global;

/// The greatest length of a line, in bytes, without its LF.
pub(crate) const LONGEST_LINE: usize = 1 << 25;

/// Reads a line, given without its LF: what it says, or `None` where it is skipped.
///
/// One CR at the end is dropped; what stands before it is the content. A line is skipped if its content
/// is empty or has only spaces and tabs, or if it begins with `#`. Any other line is fields, with one
/// or more spaces or tabs between two, and any number of them at the end.
///
/// The first field begins at byte 0: `n` (a node), `w` (a way) or `r` (a relation), and the id. The
/// others come in any order, each letter at most once:
///
/// | Letter | What follows it | If the field is missing |
/// |---|---|---|
/// | `v` | the version | 0 |
/// | `d` | `V` (visible) or `D` (deleted) | visible |
/// | `c` | the changeset | 0 |
/// | `t` | a timestamp `YYYY-MM-DDThh:mm:ssZ`, or nothing where none is known | none is known |
/// | `i` | the number of the user | 0 |
/// | `u` | the name of the user, a text | empty |
/// | `T` | tags with a comma between two, each a text, `=`, a text | no tags |
/// | `x`, `y` | of a node: longitude and latitude in degrees, or nothing where it is missing | missing |
/// | `N` | of a way: its nodes with a comma between two, each `n` and an id | no nodes |
/// | `M` | of a relation: its members with a comma between two, each `n`, `w` or `r` and an id, `@`, and the role, a text | no members |
///
/// A line with `dD` deletes its object: the other fields must be right and say nothing. A node that
/// isn't deleted must have `x` and `y`.
///
/// Whole numbers are an optional `-` (but for a version) and digits, leading zeros allowed. Degrees
/// have up to 7 digits after a point. In a text each byte stands for itself but NUL, tab, LF, CR, space,
/// `%`, `,` and `=`; `%`, 1 to 8 hexadecimal digits, `%` is the character of that code point, which
/// isn't NUL. A role is what follows the first `@`.
///
/// Limits: 2^25 bytes a line, with its CR; ids, changesets and numbers of users of 64 bits with a
/// sign, versions of 32 bits; -180 to 180 and -90 to 90 degrees; 65,535 tags, nodes or members, no key
/// twice; 4,096 bytes a text; 2^24 bytes of the object's canonical line.
///
/// Refused by the first of these that is met, each at its byte from 0: `LineTooLong` at 2^25;
/// `NotUtf8` at the first byte that isn't, in a line that isn't skipped; `UnknownObject` at 0; `BadId`
/// at 1. Then field by field from the left, at the field's first byte: `UnknownField`; `OtherKind`, a
/// field of another kind of object; `FieldTwice`; then by what is met first after the letter, `BadValue`
/// where the text has another form or a number is out of its range, `BadEscape` at its `%`, or
/// `LocatedNode` where a node of a way has an `x` after its id; `OutsideModel` for degrees out of
/// range, and for a list or a text over its limit or a key twice. Then `NoLocation` at the length of
/// the content, and `OutsideModel` at 0 where the canonical line is too long. `Memory` at 0, out of
/// memory, is never the answer in place of one of the first four.
///
/// It goes over the bytes a fixed number of times, sorts tags whose keys don't rise, and copies no text
/// but once, into the object.
///
/// Source: fields and letters of Osmium's OPL manual. This project adds what is skipped, what stands
/// between fields, the limits, and the causes with their places.
pub fn read_line(alloc: Global, line: &[u8]) -> Result<Option<Change>, OplFault>
    // What is read is what the line says.
    ensures read { IfOk result (λ found. MatchOption found (IsSkipped line.now) (Spells line.now)) }
    // What the line says is read, unless memory runs out.
    ensures only { (change : Change) → Spells line.now change
        → MatchResult result (λ found. found ≡ Some change)
        (λ fault. fault.cause ≡ OplCause.Memory) }
    // A skipped line is read as none.
    ensures skipped { IsSkipped line.now → result ≡ Ok None }
    // A refusal's cause stands at its place.
    ensures refused { IfErr result (λ fault. StandsAt line.now fault.cause fault.byte) }
    // Out of memory is never reported in place of one of the first four faults.
    ensures memory { IfErr result (λ fault. fault.cause ≡ OplCause.Memory → BeginsRight line.now) }
{
    if line.len() > LONGEST_LINE {
        return Err(OplFault {
            cause: OplCause::LineTooLong,
            byte: LONGEST_LINE,
        });
    }
    if is_skipped(line) {
        return Ok(None);
    }
    let text = read_content(line)?;
    let (name, parts) = read_parts(alloc, line, text)?;
    let change = change_of(alloc, line, name, parts)?;
    Ok(Some(change))
}

/// A law: a line says one change at most (`Spells` of `specs/LineChanges.antt`).
pub fn one_change()
    ensures { (line : List ℕ) (a b : Change) → Spells line a → Spells line b → a ≡ b }
{}

/// The content of a line, which must be UTF-8.
fn read_content(line: &[u8]) -> Result<&str, OplFault>
    ensures content { IfOk result (λ text. text.now ≡ content line.now) }
    ensures utf8 { OnOk result (IsUtf8 line.now) }
    ensures real { IfErr result (λ fault. fault.cause ≢ OplCause.Memory) }
    ensures refused { IfErr result (λ fault. StandsAt line.now fault.cause fault.byte) }
{
    match from_utf8(line) {
        Ok(text) => Ok(text_content(text)),
        Err(error) => Err(OplFault {
            cause: OplCause::NotUtf8,
            byte: error.valid_up_to(),
        }),
    }
}

/// What a line of this name and these parts says.
fn change_of(alloc: Global, line: &[u8], name: Ref, parts: LineParts) -> Result<Change, OplFault>
    requires { SpellsParts line.now name parts }
    ensures read { IfOk result (λ change. Spells line.now change) }
    ensures real { IfErr result (λ fault. fault.cause ≢ OplCause.Memory) }
    ensures refused { IfErr result (λ fault. StandsAt line.now fault.cause fault.byte) }
{
    if parts.visible == Some(false) {
        return Ok(Change::Delete(name));
    }
    let object = object_of(alloc, line, name, parts)?;
    Ok(Change::Put(object))
}
