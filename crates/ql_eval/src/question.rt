//! Questions to the trees of a publication.

use osm_model::{Kind, Ref};

/// What one walk over a tree answers: which objects there are of one sort.
#[derive(Clone, Copy)]
pub(crate) enum Question<'q> {
    /// The objects of a kind.
    OfKind(Kind),
    /// Those of a kind, or of all kinds, that have a tag with this key and this value.
    WithTag(&'q [u8], &'q [u8], Option<Kind>),
    /// Those that have a tag with this key.
    WithKey(&'q [u8]),
    /// The objects of a kind, or of all kinds, that list this one, which needn't be in the set.
    ThatList(Ref, Option<Kind>),
}
