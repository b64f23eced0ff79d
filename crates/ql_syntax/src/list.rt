//! Lists that grow by one.

ghost use Rattle.std.specs.Prelude.{◌≡◌, ◌++◌, ◌∷◌, [], IfOk};

use std::alloc::{AllocError, Global};

/// The list of this item alone, with room for so many items.
#[inline(always)]
pub(crate) fn list_of<T>(alloc: Global, item: T, room: usize) -> Result<Vec<T>, AllocError>
where
    T: Drop,
    ensures { IfOk result (λ list. list.items ≡ item ∷ []) }
{
    let mut list = Vec::with_capacity(alloc, room)?;
    list.push(item).map_err(AllocError::from)?;
    Ok(list)
}

/// The list with this item after the others.
#[inline(always)]
pub(crate) fn appended<T>(list: Vec<T>, item: T) -> Result<Vec<T>, AllocError>
where
    T: Drop,
    ensures { IfOk result (λ longer. longer.items ≡ list.items ++ item ∷ []) }
{
    let mut longer = list;
    longer.push(item).map_err(AllocError::from)?;
    Ok(longer)
}
