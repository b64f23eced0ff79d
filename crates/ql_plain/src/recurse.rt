//! Recursions.

ghost use Rattle.std.specs.Prelude.{IfOk};
ghost use Rattle.ref_sets.specs.Sets.{IsSetOf};
ghost use Rattle.ql_meaning.specs.Values.{IsDown, IsReached, IsRefOf, IsUp};

use crate::chains::{down_all, up_all};
use crate::neighbours::{above, below};
use osm_model::{Kind, ObjectSet};
use ql_syntax::Recursion;
use ref_sets::RefSet;
use std::alloc::{AllocError, Global};

/// What a recursion gives from a set.
pub(crate) fn recurse(
    alloc: Global,
    how: Recursion,
    from: &RefSet,
    set: &ObjectSet,
) -> Result<RefSet, AllocError>
    ensures { IfOk result
        (λ refs. IsSetOf refs (IsRefOf set.now (IsReached set.now how from.now))) }
{
    match how {
        Recursion::Down => down(alloc, set, from),
        Recursion::Up => up(alloc, set, from),
        Recursion::DownAll => down_all(alloc, set, from),
        Recursion::UpAll => up_all(alloc, set, from),
    }
}

/// `>`: nodes of a way of the set; nodes and ways of a relation of the set; nodes of such a way.
fn down(alloc: Global, set: &ObjectSet, from: &RefSet) -> Result<RefSet, AllocError>
    ensures { IfOk result (λ refs. IsSetOf refs (IsRefOf set.now (IsDown set.now from.now))) }
{
    // For the proof alone: a reference names one object.
    let _ = set.as_slice();
    let nodes = below(alloc, set, from, Kind::Way)?;
    let members = below(alloc, set, from, Kind::Rel)?;
    let inner = below(alloc, set, &members, Kind::Way)?;
    let relations = members.of_kind(alloc, Kind::Rel)?;
    let others = members.difference(alloc, &relations)?;
    let refs = nodes.union(alloc, &others)?;
    refs.union(alloc, &inner)
}

/// `<`: ways of a node of the set; relations of a node or way of the set; relations of such a way.
fn up(alloc: Global, set: &ObjectSet, from: &RefSet) -> Result<RefSet, AllocError>
    ensures { IfOk result (λ refs. IsSetOf refs (IsRefOf set.now (IsUp set.now from.now))) }
{
    // For the proof alone: a reference names one object.
    let _ = set.as_slice();
    let of_nodes = above(alloc, set, from, Kind::Node)?;
    let of_ways = above(alloc, set, from, Kind::Way)?;
    let outer = above(alloc, set, &of_nodes, Kind::Way)?;
    let refs = of_nodes.union(alloc, &of_ways)?;
    refs.union(alloc, &outer)
}
