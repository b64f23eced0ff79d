//! The references of some kinds in a list that rises, which are next to each other: references rise by kind first.

ghost use Rattle.std.specs.Prelude.{◌≡◌, ◌≤◌, ◌↔◌};
ghost use Rattle.std.specs.List.{Contains};
ghost use Rattle.std.specs.List.Sorted.{IsStrictlySortedBy};
ghost use Rattle.osm_model.specs.Elements.{kind_byte, ref_cmp};
ghost use Rattle.ref_sets.specs.Kinds.{IsBetween};
ghost use Rattle.ref_sets.specs.Sets.{IsSetOf};

use osm_model::{Kind, Ref};

/// The references whose kinds are from one to another. Two binary searches.
pub(crate) fn between(refs: &[Ref], first: Kind, last: Kind) -> &[Ref]
    requires { IsStrictlySortedBy ref_cmp refs.now }
    ensures { IsSetOf result.now (λ r. Contains refs.now r × IsBetween first last r) }
{
    let rest = from_kind(refs, first);
    let count = rest.partition_point(|name| number_of(name.kind) <= number_of(last));
    &rest[..count]
}

/// The references of a kind and of the kinds after it. A binary search.
fn from_kind(refs: &[Ref], kind: Kind) -> &[Ref]
    requires { IsStrictlySortedBy ref_cmp refs.now }
    ensures { IsSetOf result.now (λ r. Contains refs.now r × (kind_byte kind ≤ kind_byte r.kind)) }
{
    let first = refs.partition_point(|name| number_of(name.kind) < number_of(kind));
    &refs[first..]
}

/// The number of a kind, by which references rise first.
fn number_of(kind: Kind) -> u8
    ensures { result ≡ kind_byte kind }
{
    kind as u8
}
