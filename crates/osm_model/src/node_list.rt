//! Lists of nodes.

ghost use Rattle.std.specs.Prelude.{◌≡◌, All, FitsSigned, IfOk};
ghost use Rattle.std.proofs.Common.{rules};
ghost use Rattle.std.specs.Int.{w64};
ghost use Rattle.std.specs.Ordering.{int_eq};
ghost use Rattle.std.specs.Cmp.Lexicographic.{pointwise};
ghost use Rattle.std.specs.Cmp.Rules.{comparing};

use std::alloc::{AllocError, Global};
use std::marker::Model;

/// The ids of a way's nodes, in its order; a node may come twice. Contracts see the list of them.
#[derive(Debug, Drop)]
pub struct NodeList {
    ids: Vec<i64>,
}

impl Model for NodeList {
    ghost use Rattle.std.specs.Prelude.{List, ℤ};

    ghost Value = { List ℤ };

    ghost view = { λ a. a.ids.items };
}

impl NodeList {
    /// The list of these ids.
    pub fn new(ids: Vec<i64>) -> NodeList
        ensures { result ≡ ids.items }
    {
        NodeList { ids }
    }

    /// A copy.
    pub fn copy(&self, alloc: Global) -> Result<NodeList, AllocError>
        ensures { IfOk result (λ list. list ≡ self.now) }
    {
        Ok(NodeList {
            ids: Vec::from_slice(alloc, &self.ids)?,
        })
    }

    /// The ids.
    pub fn as_slice(&self) -> &[i64]
        ensures { result.now ≡ self.now }
    {
        &self.ids
    }
}

impl PartialEq for NodeList {
    ghost eq = { λ a b. pointwise int_eq a b };

    ghost laws = { Prim.search (comparing, rules) };

    fn eq(&self, other: &NodeList) -> bool {
        self.ids == other.ids
    }
}

impl Eq for NodeList {
    ghost laws = { Prim.search (comparing, rules) };
}

/// Brings to a proof that ids are in the range of their type. It does nothing else.
pub(crate) fn note_ids(ids: &[i64])
    ensures { All (λ id. FitsSigned w64 id) ids.now }
{
    for id in ids {
        let _id = *id;
    }
}
