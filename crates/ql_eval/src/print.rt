//! What an out prints.

ghost use Rattle.std.specs.Prelude.{◌≡◌, ◌≢◌, ◌≤◌, ◌+◌, ℕ, IfErr, List, OnOk, length};
ghost use Rattle.osm_model.specs.Sets.{object_at};
ghost use Rattle.osm_forms.specs.Forms.{form_name, form_text};
ghost use Rattle.osm_keys.specs.Publications.{IsPublication, Publication};
ghost use Rattle.ref_sets.specs.Adding.{From};
ghost use Rattle.ql_meaning.specs.Meanings.{cut, printed_of_by};
ghost use Rattle.ql_eval.specs.Asks.{AskedByOut};
ghost use Rattle.ql_eval.specs.Questions.{NeededBy};
ghost use Rattle.ql_eval.specs.Work.{HasNoClash, WorkOfOut};
ghost use Rattle.ql_eval.specs.Written.{HasWritten};
ghost use Rattle.ql_eval.specs.internal.Entries.{IsThere};
ghost use Rattle.ql_eval.specs.internal.Links.{AreThere, IsLineAsk};
ghost use Rattle.ql_eval.specs.internal.Objects.{AreKnownThere, IsKnownThere};
ghost use Rattle.ql_eval.specs.internal.Printing.{line_at, lines_at, name_lines};
ghost use Rattle.ql_eval.specs.internal.Giving.{AllGiven};
ghost use Rattle.ql_eval.specs.internal.Metering.{IsBounded, IsCounted, IsSpent};
ghost use Rattle.ql_eval.specs.internal.Truths.{EndsTruly};

use crate::announcing::announce_all;
use crate::fault::EvalFault;
use crate::meter::Meter;
use crate::sink::Sink;
use crate::source::Source;
use osm_forms::Form;
use osm_model::{Object, OutMode, Ref};
use ref_sets::RefSet;
use std::alloc::{AllocError, Global};

/// Most lines have fewer bytes than this; a longer one grows.
const LINE_ROOM: usize = 256;

/// Writes the first objects of a set in a form, by kind and rising id, at most so many. By ids nothing is asked; in every other
/// mode each object is asked of the source, `Absent` where one isn't there.
pub(crate) fn print<W: Source, T: Sink>(
    alloc: Global,
    form: Form,
    source: &mut W,
    meter: &mut Meter,
    refs: &RefSet,
    mode: OutMode,
    limit: Option<u64>,
    sink: &mut T,
) -> Result<(), EvalFault>
    requires { AllGiven (W.gave source.old) refs.now }
    ensures later { W.later source.old source.new }
    ensures walked { OnOk result (W.walked source.old source.new) }
    ensures told { IfErr result (W.tells source.new) }
    ensures kept { T.kept sink.new ≡ T.kept sink.old }
    ensures wrote { (text : List ℕ) × HasWritten (T.stands sink.old) (T.stands sink.new) text }
    ensures there { OnOk result
        (mode ≢ OutMode.Ids → AreKnownThere (W.knows source.new) (cut limit refs.now)) }
    ensures answer { (p : Publication) → IsPublication p → W.under source.old p
        → AreThere p.objects refs.now
        → EndsTruly W.holds W.used W.under source.old source.new p
        (λ _. HasWritten (T.stands sink.old) (T.stands sink.new)
        (printed_of_by (form_text form) p.objects refs.now mode limit))
        (NeededBy p (AskedByOut p refs.now mode limit)) result }
    ensures bounded { (p : Publication) → IsPublication p → W.under source.old p
        → AreThere p.objects refs.now → HasNoClash p (W.used source.new)
        → IsBounded (WorkOfOut (form_text form) p refs.now mode limit)
        meter.old.spent meter.new.spent }
    ensures spent { OnOk result ((p : Publication) → IsPublication p → W.under source.old p
        → AreThere p.objects refs.now → HasNoClash p (W.used source.new)
        → IsSpent (WorkOfOut (form_text form) p refs.now mode limit)
        meter.old.spent meter.new.spent) }
{
    let first = first_of(refs.as_slice(), limit);
    meter.charge(first.len())?;
    if mode == OutMode::Ids {
        print_names(alloc, form, meter, first, sink)?;
        return Ok(());
    }
    print_objects(alloc, form, source, meter, first, mode, sink)
}

/// The first references, at most so many.
fn first_of(refs: &[Ref], limit: Option<u64>) -> &[Ref]
    ensures { result.now ≡ cut limit refs.now }
{
    match limit {
        Some(most) if most < refs.len() as u64 => &refs[..most as usize],
        _ => refs,
    }
}

/// Writes objects by their references alone.
fn print_names<T: Sink>(
    alloc: Global,
    form: Form,
    meter: &mut Meter,
    names: &[Ref],
    sink: &mut T,
) -> Result<(), AllocError>
    ensures kept { T.kept sink.new ≡ T.kept sink.old }
    ensures wrote { (text : List ℕ) × HasWritten (T.stands sink.old) (T.stands sink.new) text }
    ensures written { OnOk result
        (HasWritten (T.stands sink.old) (T.stands sink.new) (name_lines form names.now)) }
    ensures bounded { meter.new.spent ≤ meter.old.spent + length (name_lines form names.now) }
    ensures spent { OnOk result
        (IsCounted meter.old.spent meter.new.spent (length (name_lines form names.now))) }
{
    let mut line = Vec::new(alloc);
    for name in names {
        put_name(form, meter, *name, &mut line, sink)?;
    }
    Ok(())
}

/// Writes an object by its reference alone.
fn put_name<T: Sink>(
    form: Form,
    meter: &mut Meter,
    name: Ref,
    line: &mut Vec<u8>,
    sink: &mut T,
) -> Result<(), AllocError>
    ensures kept { T.kept sink.new ≡ T.kept sink.old }
    ensures wrote { (text : List ℕ) × HasWritten (T.stands sink.old) (T.stands sink.new) text }
    ensures written { OnOk result
        (HasWritten (T.stands sink.old) (T.stands sink.new) (form_name form name)) }
    ensures bounded { meter.new.spent ≤ meter.old.spent + length (form_name form name) }
    ensures spent { OnOk result
        (IsCounted meter.old.spent meter.new.spent (length (form_name form name))) }
{
    line.clear();
    form.write_name(name, line)?;
    meter.charge_bytes(line.len())?;
    sink.put(line)
}

/// Writes the objects with some references.
fn print_objects<W: Source, T: Sink>(
    alloc: Global,
    form: Form,
    source: &mut W,
    meter: &mut Meter,
    names: &[Ref],
    mode: OutMode,
    sink: &mut T,
) -> Result<(), EvalFault>
    requires { AllGiven (W.gave source.old) names.now }
    ensures later { W.later source.old source.new }
    ensures walked { OnOk result (W.walked source.old source.new) }
    ensures told { IfErr result (W.tells source.new) }
    ensures kept { T.kept sink.new ≡ T.kept sink.old }
    ensures wrote { (text : List ℕ) × HasWritten (T.stands sink.old) (T.stands sink.new) text }
    ensures there { OnOk result (AreKnownThere (W.knows source.new) names.now) }
    ensures answer { (p : Publication) → IsPublication p → W.under source.old p
        → AreThere p.objects names.now
        → EndsTruly W.holds W.used W.under source.old source.new p
        (λ _. HasWritten (T.stands sink.old) (T.stands sink.new)
        (lines_at form p.objects mode names.now))
        (NeededBy p (From names.now (IsLineAsk p))) result }
    ensures bounded { (p : Publication) → IsPublication p → W.under source.old p
        → AreThere p.objects names.now → HasNoClash p (W.used source.new)
        → meter.new.spent ≤ meter.old.spent + length (lines_at form p.objects mode names.now) }
    ensures spent { OnOk result ((p : Publication) → IsPublication p → W.under source.old p
        → AreThere p.objects names.now → HasNoClash p (W.used source.new)
        → IsCounted meter.old.spent meter.new.spent
        (length (lines_at form p.objects mode names.now))) }
{
    announce_all(source, names);
    let mut line = Vec::new(alloc);
    for name in names {
        print_object(form, source, meter, *name, mode, &mut line, sink)?;
    }
    Ok(())
}

/// Writes the object with a reference.
fn print_object<W: Source, T: Sink>(
    form: Form,
    source: &mut W,
    meter: &mut Meter,
    name: Ref,
    mode: OutMode,
    line: &mut Vec<u8>,
    sink: &mut T,
) -> Result<(), EvalFault>
    requires { W.gave source.old name }
    ensures later { W.later source.old source.new }
    ensures walked { OnOk result (W.walked source.old source.new) }
    ensures told { IfErr result (W.tells source.new) }
    ensures kept { T.kept sink.new ≡ T.kept sink.old }
    ensures wrote { (text : List ℕ) × HasWritten (T.stands sink.old) (T.stands sink.new) text }
    ensures there { OnOk result (IsKnownThere (W.knows source.new) name) }
    ensures answer { (p : Publication) → IsPublication p → W.under source.old p
        → IsThere p.objects name
        → EndsTruly W.holds W.used W.under source.old source.new p
        (λ _. HasWritten (T.stands sink.old) (T.stands sink.new) (line_at form p.objects mode name))
        (NeededBy p (IsLineAsk p name)) result }
    ensures bounded { (p : Publication) → IsPublication p → W.under source.old p
        → IsThere p.objects name → HasNoClash p (W.used source.new)
        → meter.new.spent ≤ meter.old.spent + length (line_at form p.objects mode name) }
    ensures spent { OnOk result ((p : Publication) → IsPublication p → W.under source.old p
        → IsThere p.objects name → HasNoClash p (W.used source.new)
        → IsCounted meter.old.spent meter.new.spent (length (line_at form p.objects mode name))) }
{
    source.look_up(name)?;
    match source.known(name) {
        Some(object) => {
            put_object(form, meter, object, mode, line, sink)?;
            Ok(())
        }
        None => Err(EvalFault::Absent),
    }
}

/// Writes the text of an object.
fn put_object<T: Sink>(
    form: Form,
    meter: &mut Meter,
    object: &Object,
    mode: OutMode,
    line: &mut Vec<u8>,
    sink: &mut T,
) -> Result<(), AllocError>
    ensures kept { T.kept sink.new ≡ T.kept sink.old }
    ensures wrote { (text : List ℕ) × HasWritten (T.stands sink.old) (T.stands sink.new) text }
    ensures written { OnOk result
        (HasWritten (T.stands sink.old) (T.stands sink.new) (form_text form object.now mode)) }
    ensures bounded { meter.new.spent ≤ meter.old.spent + length (form_text form object.now mode) }
    ensures spent { OnOk result
        (IsCounted meter.old.spent meter.new.spent (length (form_text form object.now mode))) }
{
    line.clear();
    line.reserve(LINE_ROOM)?;
    form.write_object(object, mode, line)?;
    meter.charge_bytes(line.len())?;
    sink.put(line)
}
