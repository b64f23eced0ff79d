//! Hints of what will be asked for.

ghost use Rattle.std.specs.Prelude.{ℕ, List};
ghost use Rattle.tree_node.specs.Shelves.{SameNodes, Stays};
ghost use Rattle.ql_eval.specs.internal.Truths.{StaysTrue};

use crate::source::Source;
use crate::walks::top_of;
use osm_keys::{Manifest, OwnedRange, reference_key};
use osm_model::Ref;
use tree_node::{Shelf, Tree};

/// Tells a shelf that an object will be looked up.
pub(crate) fn announce_object<'a, S: Shelf<'a>>(shelf: &mut S, manifest: &Manifest, name: Ref)
    ensures stays { Stays S.is_fixed (S.holds shelf.old) (S.holds shelf.new) }
    ensures used { SameNodes (S.used shelf.old) (S.used shelf.new) }
{
    let key = reference_key(name);
    shelf.announce(top_of(manifest, Tree::Objects), &key, &key);
}

/// Tells a source that these objects will be looked up.
pub(crate) fn announce_all<W: Source>(source: &mut W, names: &[Ref])
    ensures later { W.later source.old source.new }
    ensures walked { W.walked source.old source.new }
    ensures truly { StaysTrue W.under source.old source.new }
    ensures used { SameNodes (W.used source.old) (W.used source.new) }
{
    for name in names {
        source.announce(*name);
    }
}

/// Tells a shelf that the entries of the cell tree in these ranges will be asked for.
pub(crate) fn announce_cells<'a, S: Shelf<'a>>(
    shelf: &mut S,
    manifest: &Manifest,
    ranges: &[OwnedRange],
)
    ensures stays { Stays S.is_fixed (S.holds shelf.old) (S.holds shelf.new) }
    ensures used { SameNodes (S.used shelf.old) (S.used shelf.new) }
{
    for keys in ranges {
        let range = keys.as_range();
        shelf.announce(top_of(manifest, Tree::Cells), range.lo, range.hi);
    }
}
