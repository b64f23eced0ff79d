//! A set of objects with its trees and its root.

ghost use Rattle.std.specs.Prelude.{◌≡◌, ◌≢◌, ◌≤◌, ◌⊎◌, ◌↔◌, ℕ, List, Err, IfErr, IfOk, OnErr, OnOk, length, map};
ghost use Rattle.std.specs.List.{Contains};
ghost use Rattle.osm_model.specs.Elements.{Element};
ghost use Rattle.osm_model.specs.Sets.{IsObjectSet};
ghost use Rattle.osm_model.specs.declared.reference.Ref.{Ref};
ghost use Rattle.tree_node.specs.NodeRefs.{bindings_of, number_of};
ghost use Rattle.tree_node.specs.Outcomes.{Clash};
ghost use Rattle.tree_node.specs.Shelves.{IsClashFree, IsEmptySet};
ghost use Rattle.tree_node.specs.Stocks.{HasNode};
ghost use Rattle.tree_build.specs.Shapes.{shape_of as shape_word};
ghost use Rattle.osm_index.specs.Applying.{AreApart, AreApplicable, IsApplied, IsDeltaOf, IsFirstMissing, IsFirstTwice, IsLast, IsNodeOfEither, edition_after};
ghost use Rattle.osm_keys.specs.Entries.{AreEntriesOf};
ghost use Rattle.osm_index.specs.Holdings.{HoldSome};
ghost use Rattle.hex.specs.Hex.{encode_lower};
ghost use Rattle.osm_keys.specs.Publications.{HasTooMany, IsNodeIn, IsPublicationOf, Publication, root_of, shape_of};
ghost use Rattle.osm_index.specs.internal.Updates.{IsPlanOf, IsUpdate, IsUpdateBy, RefusesUpdate};
ghost use Rattle.osm_index.specs.internal.Putting.{AreAllFour, EndsTree, EndsTrees};

use crate::all_objects::all_objects;
use crate::announced_fault::AnnouncedFault;
use crate::apply_fault::ApplyFault;
use crate::build_progress::{BuildProgress, Unwatched};
use crate::delta::Delta;
use crate::digits::are_digits_of;
use crate::fault::IndexFault;
use crate::held_tree::entry_count;
use crate::listing::entries_of;
use crate::node_changes::{put_nodes, remove_nodes};
use crate::update::Update;
use crate::update_fault::UpdateFault;
use crate::update_plan::UpdatePlan;
use opl_codec::Change;
use osm_keys::{Edition, Manifest, write_manifest};
use osm_model::{ObjectSet, Ref};
use std::alloc::{AllocError, Global};
use tree_build::{BuildFault, Entry, RebuildFault, Shape, build};
use tree_node::{Digest, ENTRY_LIMIT, PutFault, Stock, Tree};

/// A set of objects in an edition, with the nodes of its trees, its manifest and its root: the type keeps
/// that they are those of one publication, and that no two different nodes of it have one digest.
#[derive(Drop)]
pub struct Snapshot {
    edition: Edition,
    stock: Stock,
    manifest: Manifest,
    root: Digest,
    ghost own: { ∥ HoldSome edition stock manifest root ∥₁ },
}

impl Snapshot {
    ghost use Rattle.osm_index.specs.Snapshots.{HoldsPublication, IsAsBefore};

    /// Builds the trees of a set of objects (this project's trees, docs/FORMATS.md).
    ///
    /// The time is that of sorting the entries of each tree and of hashing all nodes; the entries of one
    /// tree at a time are held beside the nodes. What the snapshot holds comes from `alloc`.
    ///
    /// Refused with `TooMany` (I4) where a tree would have more than 2^29 entries, else with `Clash` (I1)
    /// where two different nodes have one digest; `Memory` may come in place of any answer.
    pub fn build(alloc: Global, set: ObjectSet, edition: Edition) -> Result<Snapshot, IndexFault>
        // The snapshot holds a publication of this set in this edition.
        ensures made { IfOk result (λ snapshot. (p : Publication) × HoldsPublication snapshot p
            × (p.objects ≡ set) × (snapshot.edition ≡ edition)) }
        // There are too many entries where it says so,
        ensures too_many { result ≡ Err IndexFault.TooMany → HasTooMany set }
        // and two nodes of a publication clash where it says so.
        ensures clash { result ≡ Err IndexFault.Clash → (p : Publication)
            × IsPublicationOf set edition p × Clash (IsNodeIn p) (IsNodeIn p) }
    {
        Snapshot::build_watched(alloc, set, edition, &mut Unwatched)
    }

    /// The same, and tells somebody which tree is begun.
    pub fn build_watched<B: BuildProgress>(
        alloc: Global,
        set: ObjectSet,
        edition: Edition,
        progress: &mut B,
    ) -> Result<Snapshot, IndexFault>
        // As `build`.
        ensures made { IfOk result (λ snapshot. (p : Publication) × HoldsPublication snapshot p
            × (p.objects ≡ set) × (snapshot.edition ≡ edition)) }
        ensures too_many { result ≡ Err IndexFault.TooMany → HasTooMany set }
        ensures clash { result ≡ Err IndexFault.Clash → (p : Publication)
            × IsPublicationOf set edition p × Clash (IsNodeIn p) (IsNodeIn p) }
    {
        let mut stock = Stock::new(alloc);
        let Some(tops) = put_trees(alloc, &set, edition, &mut stock, progress)? else {
            return Err(IndexFault::Clash);
        };
        let manifest = Manifest { edition, tops };
        let mut bytes = Vec::new(alloc);
        write_manifest(&manifest, &mut bytes)?;
        match stock.put(bytes) {
            Ok(root) => Ok(Snapshot {
                edition,
                stock,
                manifest,
                root,
            }),
            Err(PutFault::Clash) => Err(IndexFault::Clash),
            Err(PutFault::Memory) => Err(IndexFault::Memory),
        }
    }

    /// Publishes a changed set at the next sequence: without the objects that the changes name, and with those
    /// put. It tells which nodes come and which go.
    ///
    /// The time grows with the changes: with sorting them and their entries, with a walk down the object tree for
    /// each, and with the nodes that change times the levels of the trees; of the objects that no change names none
    /// is looked at. What the snapshot holds then comes from `alloc`.
    ///
    /// Refused by the first of these that holds: `LastSequence` (I5) where the sequence is 2^64 - 1, or the snapshot
    /// is of the first edition, which has none; `ChangedTwice` (I3) by the earliest change whose object an earlier one
    /// names, `NotThere` (I2) by the earliest delete of an object that isn't in the set, `TooMany` (I4) where a tree
    /// would have more than 2^29 entries, `Clash` (I1) where two different nodes of the old and the new publication
    /// together have one digest. Each but the first may be `Memory` instead, and so may any answer. After a refusal
    /// the snapshot is as before.
    pub fn apply(&mut self, alloc: Global, changes: &[Change]) -> Result<Delta, ApplyFault>
        // The snapshot holds a publication of the changed set at the next sequence.
        ensures applied { (p : Publication) → HoldsPublication self.old p
            → OnOk result ((q : Publication) × HoldsPublication self.new q
            × IsApplied p.objects changes.now q.objects × (q.edition ≡ edition_after p.edition)) }
        // The delta is of all nodes, the manifests too.
        ensures delta { IfOk result (λ delta. (p q : Publication)
            → HoldsPublication self.old p → HoldsPublication self.new q → IsDeltaOf p q delta) }
        // No refusal holds where it succeeds: no two different nodes of both have one digest, either.
        ensures applicable { (p : Publication) → HoldsPublication self.old p
            → OnOk result (AreApplicable p.objects p.edition changes.now) }
        ensures no_clash { OnOk result ((p q : Publication)
            → HoldsPublication self.old p → HoldsPublication self.new q
            → IsClashFree (IsNodeOfEither p q)) }
        // After a refusal all is as before.
        ensures stays { OnErr result (IsAsBefore self.old self.new) }
        // No sequence comes after the set's where it says so, and only there.
        ensures last { (result ≡ Err ApplyFault.LastSequence) ↔ IsLast self.old.edition }
        // Else two changes are of one object where it says so; else a deleted object isn't there;
        ensures twice { (p : Publication) → HoldsPublication self.old p → (r : Ref)
            → result ≡ Err (ApplyFault.ChangedTwice r)
            → (¬ IsLast self.old.edition) × IsFirstTwice changes.now r }
        ensures missing { (p : Publication) → HoldsPublication self.old p → (r : Ref)
            → result ≡ Err (ApplyFault.NotThere r)
            → (¬ IsLast self.old.edition) × AreApart changes.now
            × IsFirstMissing p.objects changes.now r }
        // else there are too many entries; else two nodes of the old and the new publication clash.
        ensures too_many { (p : Publication) → HoldsPublication self.old p
            → result ≡ Err ApplyFault.TooMany
            → AreApplicable p.objects p.edition changes.now
            × ((set : List Element) × IsApplied p.objects changes.now set × HasTooMany set) }
        ensures clash { (p : Publication) → HoldsPublication self.old p
            → result ≡ Err ApplyFault.Clash
            → AreApplicable p.objects p.edition changes.now
            × ((q : Publication) × IsApplied p.objects changes.now q.objects
            × IsPublicationOf q.objects (edition_after p.edition) q
            × Clash (IsNodeOfEither p q) (IsNodeOfEither p q)) }
    {
        let update = self.prepare_update(alloc, changes)?;
        self.take_over(update)
    }

    /// Publishes a changed set at the next sequence, as [`Snapshot::apply`] does, where the text is what its root is
    /// announced to be: the root's 64 hexadecimal digits in lower case. The roots are compared before anything changes.
    ///
    /// Refused as `apply` refuses; and by `OtherRoot` (I6), which comes after `TooMany` and before `Clash`, where the
    /// root of the changed set at the next sequence has other digits than the text. After a refusal the snapshot is as
    /// before.
    pub fn apply_announced(
        &mut self,
        alloc: Global,
        changes: &[Change],
        announced: &[u8],
    ) -> Result<Delta, AnnouncedFault>
        // As `apply`,
        ensures applied { (p : Publication) → HoldsPublication self.old p
            → OnOk result ((q : Publication) × HoldsPublication self.new q
            × IsApplied p.objects changes.now q.objects × (q.edition ≡ edition_after p.edition)) }
        // and the root is the one that is announced.
        ensures announced { OnOk result (announced.now ≡ encode_lower self.new.root.0) }
        ensures delta { IfOk result (λ delta. (p q : Publication)
            → HoldsPublication self.old p → HoldsPublication self.new q → IsDeltaOf p q delta) }
        ensures applicable { (p : Publication) → HoldsPublication self.old p
            → OnOk result (AreApplicable p.objects p.edition changes.now) }
        ensures no_clash { OnOk result ((p q : Publication)
            → HoldsPublication self.old p → HoldsPublication self.new q
            → IsClashFree (IsNodeOfEither p q)) }
        // After a refusal all is as before.
        ensures stays { OnErr result (IsAsBefore self.old self.new) }
        // The changes are refused as by `apply`: no sequence comes after the set's,
        ensures last { (result ≡ Err (AnnouncedFault.Apply ApplyFault.LastSequence))
            ↔ IsLast self.old.edition }
        // else two changes are of one object; else a deleted object isn't there; else there are too many entries;
        ensures twice { (p : Publication) → HoldsPublication self.old p → (r : Ref)
            → result ≡ Err (AnnouncedFault.Apply (ApplyFault.ChangedTwice r))
            → (¬ IsLast self.old.edition) × IsFirstTwice changes.now r }
        ensures missing { (p : Publication) → HoldsPublication self.old p → (r : Ref)
            → result ≡ Err (AnnouncedFault.Apply (ApplyFault.NotThere r))
            → (¬ IsLast self.old.edition) × AreApart changes.now
            × IsFirstMissing p.objects changes.now r }
        ensures too_many { (p : Publication) → HoldsPublication self.old p
            → result ≡ Err (AnnouncedFault.Apply ApplyFault.TooMany)
            → AreApplicable p.objects p.edition changes.now
            × ((set : List Element) × IsApplied p.objects changes.now set × HasTooMany set) }
        // else what they make has another root than is announced; else it has that one, and two nodes clash.
        ensures other_root { (p : Publication) → HoldsPublication self.old p
            → result ≡ Err AnnouncedFault.OtherRoot
            → AreApplicable p.objects p.edition changes.now
            × ((q : Publication) × IsApplied p.objects changes.now q.objects
            × IsPublicationOf q.objects (edition_after p.edition) q
            × (announced.now ≢ encode_lower (root_of q))) }
        ensures clash { (p : Publication) → HoldsPublication self.old p
            → result ≡ Err (AnnouncedFault.Apply ApplyFault.Clash)
            → AreApplicable p.objects p.edition changes.now
            × ((q : Publication) × IsApplied p.objects changes.now q.objects
            × IsPublicationOf q.objects (edition_after p.edition) q
            × (announced.now ≡ encode_lower (root_of q))
            × Clash (IsNodeOfEither p q) (IsNodeOfEither p q)) }
    {
        let update = self.prepare_update(alloc, changes)?;
        if !are_digits_of(announced, &update.root) {
            return Err(AnnouncedFault::OtherRoot);
        }
        let delta = self.take_over(update)?;
        Ok(delta)
    }

    /// Takes over what changes make of the snapshot, and tells which nodes come and which go. Refused where two nodes
    /// clash, or memory runs out; then the snapshot is as before.
    fn take_over(&mut self, update: Update) -> Result<Delta, ApplyFault>
        requires listed { update.added.items ≡ map (λ node. node.digest) update.nodes.items }
        requires made { (p : Publication) → HoldsPublication self.old p
            → (q : Publication) × IsUpdate p q update }
        ensures held { (p q : Publication) → HoldsPublication self.old p → IsUpdate p q update
            → OnOk result (HoldsPublication self.new q) }
        ensures root { OnOk result (self.new.root ≡ update.root) }
        ensures delta { IfOk result (λ delta. (p q : Publication)
            → HoldsPublication self.old p → HoldsPublication self.new q → IsDeltaOf p q delta) }
        ensures no_clash { OnOk result ((p q : Publication)
            → HoldsPublication self.old p → HoldsPublication self.new q
            → IsClashFree (IsNodeOfEither p q)) }
        ensures stays { OnErr result (IsAsBefore self.old self.new) }
        ensures refused { IfErr result (λ fault. (fault ≡ ApplyFault.Clash)
            ⊎ (fault ≡ ApplyFault.Memory)) }
        ensures clash { (p q : Publication) → HoldsPublication self.old p → IsUpdate p q update
            → result ≡ Err ApplyFault.Clash → Clash (IsNodeOfEither p q) (IsNodeOfEither p q) }
    {
        let added = update.added;
        put_nodes(&mut self.stock, update.nodes, &added)?;
        // Nothing refuses from here on.
        self.edition = update.manifest.edition;
        self.manifest = update.manifest;
        self.root = update.root;
        let gone = update.gone;
        remove_nodes(&mut self.stock, &gone);
        Ok(Delta { added, gone })
    }

    /// What the changes make of the snapshot. It reads the object tree for the objects that they name.
    fn prepare_update(&self, alloc: Global, changes: &[Change]) -> Result<Update, ApplyFault>
        ensures listed { IfOk result (λ update. update.added.items
            ≡ map (λ node. node.digest) update.nodes.items) }
        ensures made { (p : Publication) → HoldsPublication self.now p
            → IfOk result (IsUpdateBy p changes.now) }
        ensures refused { (p : Publication) → HoldsPublication self.now p
            → IfErr result (RefusesUpdate p changes.now) }
        ensures last { (result ≡ Err ApplyFault.LastSequence) ↔ IsLast self.now.edition }
    {
        let manifest = Manifest {
            edition: self.edition,
            tops: self.manifest.tops,
        };
        let plan = self.plan(alloc, &manifest, changes)?;
        let mut shelf = self.stock.shelf(alloc);
        match plan.carry_out(alloc, &mut shelf, &manifest, &self.root) {
            Ok(update) => Ok(update),
            Err(fault) => Err(ApplyFault::from(memory_alone(fault))),
        }
    }

    /// The plan of these changes, where the manifest is that of the snapshot.
    fn plan(
        &self,
        alloc: Global,
        manifest: &Manifest,
        changes: &[Change],
    ) -> Result<UpdatePlan, ApplyFault>
        requires edition { manifest.now.edition ≡ self.now.edition }
        requires tops { manifest.now.tops ≡ self.now.manifest.tops }
        ensures planned { (p : Publication) → HoldsPublication self.now p
            → IfOk result (IsPlanOf p changes.now) }
        ensures refused { (p : Publication) → HoldsPublication self.now p
            → IfErr result (RefusesUpdate p changes.now) }
        ensures last { (result ≡ Err ApplyFault.LastSequence) ↔ IsLast self.now.edition }
    {
        let mut shelf = self.stock.shelf(alloc);
        match UpdatePlan::new(alloc, &mut shelf, manifest, changes) {
            Ok(plan) => Ok(plan),
            Err(fault) => Err(refusal(fault)),
        }
    }

    /// The number of objects: read from the nodes on the way from the object tree's top to its first leaf.
    pub fn object_count(&self, alloc: Global) -> Result<u64, AllocError>
        ensures { (p : Publication) → HoldsPublication self.now p
            → IfOk result (λ number. number ≡ length p.objects) }
    {
        let mut shelf = self.stock.shelf(alloc);
        match entry_count(alloc, &mut shelf, Tree::Objects, &self.manifest.tops[0]) {
            Ok(number) => Ok(number),
            Err(fault) => Err(memory_alone(fault)),
        }
    }

    /// The root: the digest of the manifest.
    pub fn root(&self) -> &Digest
        ensures { result.now ≡ self.now.root }
    {
        &self.root
    }

    /// The edition.
    pub fn edition(&self) -> Edition
        ensures { result ≡ self.now.edition }
    {
        self.edition
    }

    /// The nodes of the trees, and the manifest.
    pub fn stock(&self) -> &Stock
        ensures { result.now ≡ self.now.stock }
    {
        &self.stock
    }

    /// The set, read back from the object tree. Linear in the objects' lines.
    pub fn objects(&self, alloc: Global) -> Result<ObjectSet, AllocError>
        ensures { (p : Publication) → HoldsPublication self.now p
            → IfOk result (λ set. set ≡ p.objects) }
    {
        let mut shelf = self.stock.shelf(alloc);
        match all_objects(alloc, &mut shelf, &self.manifest.tops[0]) {
            Ok(set) => Ok(set),
            Err(fault) => Err(memory_alone(fault)),
        }
    }

    /// The manifest.
    pub fn manifest(&self) -> &Manifest
        ensures { result.now ≡ self.now.manifest }
    {
        &self.manifest
    }
}

/// What refuses a reading of a tree that the stock holds.
fn memory_alone(fault: RebuildFault) -> AllocError
    requires { ∥ fault ≡ RebuildFault.Memory ∥₁ }
{
    match fault {
        RebuildFault::Memory => AllocError,
        RebuildFault::Missing | RebuildFault::NoTree => unreachable!("the stock holds the tree"),
    }
}

/// What refuses changes of a publication that the stock holds.
fn refusal(fault: UpdateFault) -> ApplyFault
    requires { ∥ ((refusal : ApplyFault) × (fault ≡ UpdateFault.Apply refusal)) ∥₁ }
    ensures { fault ≡ UpdateFault.Apply result }
{
    match fault {
        UpdateFault::Apply(refusal) => refusal,
        UpdateFault::Missing | UpdateFault::NoTree => unreachable!("the stock holds the trees"),
    }
}

/// Puts the nodes of the four trees into a stock without nodes, and gives the digests of their tops;
/// none where two nodes clash. All trees are counted before a clash is told.
fn put_trees<B: BuildProgress>(
    alloc: Global,
    set: &ObjectSet,
    edition: Edition,
    stock: &mut Stock,
    progress: &mut B,
) -> Result<Option<[Digest; 4]>, IndexFault>
    requires set { IsObjectSet set.now }
    requires empty { IsEmptySet (HasNode stock.old) }
    ensures { EndsTrees set.now edition (HasNode stock.new) result }
{
    let shape = shape_of(edition);
    let count = set.as_slice().len();
    progress.begin(Tree::Objects, count);
    let objects = put_tree(alloc, set, Tree::Objects, shape, stock)?;
    progress.begin(Tree::Tags, count);
    let tags = put_tree(alloc, set, Tree::Tags, shape, stock)?;
    progress.begin(Tree::Cells, count);
    let cells = put_tree(alloc, set, Tree::Cells, shape, stock)?;
    progress.begin(Tree::Backs, count);
    let backs = put_tree(alloc, set, Tree::Backs, shape, stock)?;
    Ok(all_four(objects, tags, cells, backs))
}

/// All four, where all are there.
fn all_four(
    objects: Option<Digest>,
    tags: Option<Digest>,
    cells: Option<Digest>,
    backs: Option<Digest>,
) -> Option<[Digest; 4]>
    ensures { AreAllFour objects tags cells backs result }
{
    Some([objects?, tags?, cells?, backs?])
}

/// The shape of an edition's trees.
fn shape_of(edition: Edition) -> Shape
    ensures { shape_word result ≡ shape_of edition }
{
    match edition {
        Edition::One => Shape::One,
        Edition::Two { sequence: _ } => Shape::Two,
    }
}

/// Puts the nodes of a tree of these objects into the stock, and gives the digest of its top; none where
/// two nodes clash.
fn put_tree(
    alloc: Global,
    set: &ObjectSet,
    tree: Tree,
    shape: Shape,
    stock: &mut Stock,
) -> Result<Option<Digest>, IndexFault>
    requires { IsObjectSet set.now }
    ensures { EndsTree set.now tree (shape_word shape) (HasNode stock.old) (HasNode stock.new) result }
{
    let list = entries_of(alloc, set, tree)?;
    let entries = list.sorted(alloc)?;
    if entries.len() > ENTRY_LIMIT {
        return Err(IndexFault::TooMany);
    }
    match build(alloc, &entries, tree, shape, stock) {
        Ok(top) => Ok(Some(top)),
        Err(BuildFault::Clash) => Ok(None),
        Err(BuildFault::Memory) => Err(IndexFault::Memory),
    }
}
