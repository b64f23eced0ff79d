//! Which objects the entries of trees name.

ghost use Rattle.std.specs.Prelude.{◌≡◌, ◌⊎◌, IfErr, IfNone, IfOk, IfSome, OnOk};
ghost use Rattle.std.specs.Int.{w64};
ghost use Rattle.std.specs.Prelude.{FitsSigned};
ghost use Rattle.osm_model.specs.declared.reference.Ref.{Ref};
ghost use Rattle.tree_node.specs.NodeRefs.{binding_of, bindings_of};
ghost use Rattle.tree_node.specs.declared.tree.Tree.TheVariants.{Backs, Tags};
ghost use Rattle.ref_sets.specs.Sets.{IsSetOf};
ghost use Rattle.ql_eval.specs.Forms.{HaveForm, Names};
ghost use Rattle.ql_eval.specs.internal.Entries.{AreMisread, IsMisread, IsSaid};

use crate::cell_entry::read_cell_entry;
use crate::fault::EvalFault;
use crate::objects::object_in;
use osm_keys::{read_back_key, read_tag_key};
use osm_model::Ref;
use ref_sets::RefSet;
use std::alloc::Global;
use tree_node::{Item, Tree};

/// The objects that entries of a tree name, as a set. Each entry is read; `Form` where one isn't of the tree's form.
pub(crate) fn names_in(alloc: Global, tree: Tree, found: &[Item<'_>]) -> Result<RefSet, EvalFault>
    ensures read { IfOk result
        (λ names. IsSetOf names (IsSaid (Names tree) (bindings_of found.now))) }
    ensures formed { OnOk result (HaveForm tree (bindings_of found.now)) }
    ensures refused { IfErr result (AreMisread tree (bindings_of found.now)) }
{
    let mut names = Vec::new(alloc);
    for item in found {
        let name = name_in(alloc, tree, item)?;
        names.push(name)?;
    }
    Ok(RefSet::from_refs(names))
}

/// The object that an entry names. `Form` where the entry isn't of the tree's form.
fn name_in(alloc: Global, tree: Tree, item: &Item<'_>) -> Result<Ref, EvalFault>
    ensures named { IfOk result (Names tree (binding_of item.now)) }
    // As its type says.
    ensures fits { IfOk result (λ name. FitsSigned w64 name.id) }
    ensures refused { IfErr result (IsMisread tree (binding_of item.now)) }
{
    match tree {
        Tree::Objects => {
            let object = object_in(alloc, item)?;
            Ok(object.reference())
        }
        Tree::Tags => tagged_by(item).ok_or(EvalFault::Form),
        Tree::Cells => match read_cell_entry(item) {
            Some(node) => Ok(node.name),
            None => Err(EvalFault::Form),
        },
        Tree::Backs => referrer_in(item).ok_or(EvalFault::Form),
    }
}

/// The object that has the tag of an entry of the tag tree.
fn tagged_by(item: &Item<'_>) -> Option<Ref>
    ensures some { IfSome result (Names Tags (binding_of item.now)) }
    // As its type says.
    ensures fits { IfSome result (λ name. FitsSigned w64 name.id) }
    ensures none { IfNone result
        ((name : Ref) → FitsSigned w64 name.id → ¬ Names Tags (binding_of item.now) name) }
{
    let found = read_tag_key(item.key)?;
    item.value.is_empty().then_some(found.name)
}

/// The object that lists another one, as an entry of the back tree says it.
fn referrer_in(item: &Item<'_>) -> Option<Ref>
    ensures some { IfSome result (Names Backs (binding_of item.now)) }
    // As its type says.
    ensures fits { IfSome result (λ name. FitsSigned w64 name.id) }
    ensures none { IfNone result
        ((name : Ref) → FitsSigned w64 name.id → ¬ Names Backs (binding_of item.now) name) }
{
    let found = read_back_key(item.key)?;
    item.value.is_empty().then_some(found.referrer)
}
