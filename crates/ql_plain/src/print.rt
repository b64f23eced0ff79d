//! What an out prints.

ghost use Rattle.std.specs.Prelude.{◌≡◌, ◌<◌, ◌↔◌, ◌++◌, IsTrue, OnOk};
ghost use Rattle.std.specs.List.{Contains};
ghost use Rattle.ql_meaning.specs.Meanings.{printed_of};

use opl_codec::{OutMode, write_object};
use osm_model::{ObjectSet, Ref};
use ref_sets::RefSet;
use std::alloc::AllocError;

/// Appends the objects of a set, by kind and rising id, at most so many.
pub(crate) fn print(
    set: &ObjectSet,
    refs: &RefSet,
    mode: OutMode,
    limit: Option<u64>,
    text: &mut Vec<u8>,
) -> Result<(), AllocError>
    ensures { OnOk result (text.new.items
        ≡ text.old.items ++ printed_of set.now refs.now mode limit) }
{
    let objects = set.as_slice();
    let mut left = limit.unwrap_or(objects.len() as u64);
    for object in objects {
        if is_next(left, refs, object.reference()) {
            write_object(object, mode, text)?;
            left -= 1;
        }
    }
    Ok(())
}

/// Whether one more may be printed, and this one is in the set.
fn is_next(left: u64, refs: &RefSet, name: Ref) -> bool
    ensures { IsTrue result ↔ ((0 < left) × Contains refs.now name) }
{
    left > 0 && refs.contains(name)
}
