//! Lists of tags.

ghost use Rattle.std.specs.Prelude.{◌≡◌, IfOk};
ghost use Rattle.std.proofs.Common.{rules};
ghost use Rattle.std.specs.Cmp.Lexicographic.{pointwise};
ghost use Rattle.std.specs.Cmp.Rules.{comparing};
ghost use Rattle.osm_model.specs.Elements.{tag_eq};

use crate::tag::Tag;
use std::alloc::{AllocError, Global};
use std::marker::Model;

/// Tags in their order. Contracts see the list of them.
#[derive(Debug, Drop)]
pub struct TagList {
    tags: Vec<Tag>,
}

impl Model for TagList {
    ghost use Rattle.std.specs.Prelude.{List};
    ghost use Rattle.osm_model.specs.declared.tag.Tag.{Tag};

    ghost Value = { List Tag };

    ghost view = { λ a. a.tags.items };
}

impl TagList {
    /// The list of these tags.
    pub fn new(tags: Vec<Tag>) -> TagList
        ensures { result ≡ tags.items }
    {
        TagList { tags }
    }

    /// The tags.
    pub fn as_slice(&self) -> &[Tag]
        ensures { result.now ≡ self.now }
    {
        &self.tags
    }

    /// A copy.
    pub fn copy(&self, alloc: Global) -> Result<TagList, AllocError>
        ensures { IfOk result (λ list. list ≡ self.now) }
    {
        let mut tags = Vec::with_capacity(alloc, self.tags.len())?;
        for tag in &self.tags {
            tags.push(tag.copy(alloc)?)?;
        }
        Ok(TagList { tags })
    }

    /// The tags, to be owned by the caller.
    pub fn into_vec(self) -> Vec<Tag>
        ensures { result.items ≡ self }
    {
        let TagList { tags } = self;
        tags
    }
}

impl PartialEq for TagList {
    ghost eq = { λ a b. pointwise tag_eq a b };

    ghost laws = { Prim.search (comparing, rules) };

    fn eq(&self, other: &TagList) -> bool {
        self.tags == other.tags
    }
}

impl Eq for TagList {
    ghost laws = { Prim.search (comparing, rules) };
}
