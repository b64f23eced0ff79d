//! Lists of items between commas.

ghost use Rattle.std.specs.Prelude.{◌≡◌, ◌+◌, ◌<◌, ◌≤◌, ◌^◌, ◌++◌, ◌∷◌, [], ℕ, List, length, IfOk, IfErr, OnOk};
ghost use Rattle.osm_model.specs.declared.limits.TheConstants.{LIST_LIMIT};
ghost use Rattle.opl_codec.specs.Fields.{Each};
ghost use Rattle.opl_codec.specs.Values.{items};
ghost use Rattle.opl_codec.specs.ValueFaults.{ListFault, further_by, IsSpelled, IsTooLong};
ghost use Rattle.opl_codec.specs.internal.ListParts.{AreFirst, place_in};

use crate::cut_text::first_piece;
use crate::value_fault::ValueFault;
use memchr::memchr_iter;
use osm_model::LIST_LIMIT;
use std::alloc::{AllocError, Global};

/// An item of a list: a tag, a node of a way, a member of a relation.
pub(crate) trait ListItem: Sized + Drop {
    ghost use Rattle.opl_codec.specs.declared.value_fault.ValueFault.{ValueFault};
    ghost use Rattle.opl_codec.specs.declared.value_fault.ValueFault.TheVariants.{Limit};

    /// The text spells this item.
    ghost spells: { List ℕ → Self → Type 0 };

    /// The text spells no item, for this cause.
    ghost bad: { List ℕ → ValueFault → Type 0 };

    /// The item that is spelled so.
    fn read(alloc: Global, spelled: &str) -> Result<Self, ValueFault>
        ensures read { IfOk result (spells spelled.now) }
        ensures refused { IfErr result (bad spelled.now) };

    /// No item alone is over a limit.
    ghost unlimited: { (spelled : List ℕ) → bad spelled Limit → ⊥ };

    /// A bad escape is in the text.
    ghost within: { (spelled : List ℕ) (fault : ValueFault) → bad spelled fault → place_in fault ≤ length spelled };
}

/// The items that commas separate; an empty text has none. At most [`LIST_LIMIT`].
pub(crate) fn read_list<T: ListItem>(alloc: Global, text: &str) -> Result<Vec<T>, ValueFault>
    ensures read { IfOk result (λ list. Each T.spells (items text.now) list.items
        × (length list.items ≤ LIST_LIMIT)) }
    ensures refused { IfErr result
        (λ fault. ListFault (IsSpelled T.spells) T.bad (IsTooLong T.spells text.now) text.now fault) }
{
    let list = read_items(alloc, text)?;
    if list.len() > LIST_LIMIT {
        return Err(ValueFault::Limit);
    }
    Ok(list)
}

/// The items of a text. Where there are too many, only the first are kept, one more than a list may
/// have.
fn read_items<T: ListItem>(alloc: Global, text: &str) -> Result<Vec<T>, ValueFault>
    ensures read { IfOk result (λ list. AreFirst T.spells (items text.now) list.items) }
    ensures refused { IfErr result
        (λ fault. ListFault (IsSpelled T.spells) T.bad ⊥ text.now fault) }
{
    if text.is_empty() {
        return Ok(Vec::new(alloc));
    }
    let mut list = Vec::with_capacity(alloc, room(text))?;
    let mut left = Some(text);
    while let Some(rest) = left {
        let (spelled, more) = first_piece(rest, b',');
        match T::read(alloc, spelled) {
            Ok(item) => push_up_to_limit(item, &mut list)?,
            Err(fault) => return Err(shifted_by(fault, text.len() - rest.len())),
        }
        left = more;
    }
    Ok(list)
}

/// How many items commas separate, up to one more than a list may have.
fn room(text: &str) -> usize
    ensures { result ≤ LIST_LIMIT + 1 }
{
    memchr_iter(b',', text.as_bytes()).count().min(LIST_LIMIT) + 1
}

/// Adds the item, unless there is already one more than a list may have. So many are refused anyway;
/// further ones are read only because one of them may be bad.
fn push_up_to_limit<T: ListItem>(item: T, list: &mut Vec<T>) -> Result<(), AllocError>
    ensures { (parts : List (List ℕ)) (spelled : List ℕ) → T.spells spelled item
        → AreFirst T.spells parts list.old.items
        → OnOk result (AreFirst T.spells (parts ++ spelled ∷ []) list.new.items) }
{
    if list.len() <= LIST_LIMIT {
        list.push(item)?;
    }
    Ok(())
}

/// The same fault, so many bytes further.
pub(crate) fn shifted_by(fault: ValueFault, by: usize) -> ValueFault
    requires { by + place_in fault < 2 ^ 64 }
    ensures { result ≡ further_by by fault }
{
    match fault {
        ValueFault::Escape(at) => ValueFault::Escape(by + at),
        other => other,
    }
}
