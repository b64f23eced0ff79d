//! A shelf as a source, with the objects that were looked up in it.

ghost use Rattle.std.specs.Prelude.{◌≡◌, ℕ, List};
ghost use Rattle.tree_node.specs.Shelves.{Stays};
ghost use Rattle.tree_walk.specs.WalksGiven.{HasGiven};
ghost use Rattle.osm_keys.specs.Manifests.{top_among};
ghost use Rattle.ql_eval.specs.Openings.{IsUnder};
ghost use Rattle.ql_eval.specs.internal.Objects.{Remembers};

use crate::announcing::announce_object;
use crate::box_counts::count_in_box;
use crate::boxes::{InBox, find_in_box};
use crate::fault::EvalFault;
use crate::known::{Known, look_up};
use crate::lookups::{count_names, find_names};
use crate::memo::Memo;
use crate::question::Question;
use crate::source::Source;
use osm_keys::Manifest;
use osm_model::{BoxArea, Object, Ref};
use ql_syntax::{Recursion, Stmt};
use ref_sets::RefSet;
use std::alloc::{AllocError, Global};
use std::rc::Rc;
use tree_node::Shelf;
use tree_walk::Tally;

/// The trees under a manifest, read from a shelf.
pub(crate) struct ShelfSource<'s, 'q, 'a, S: Shelf<'a>> {
    pub(crate) alloc: Global,
    /// The statements that are answered.
    pub(crate) statements: &'s [Stmt<'q>],
    pub(crate) shelf: &'s mut S,
    pub(crate) manifest: Manifest,
    pub(crate) tally: Tally,
    /// The objects that were looked up. The caller owns them, so that a source has nothing to free.
    pub(crate) objects: &'s mut Known,
    /// What recursions gave, which the caller owns too.
    pub(crate) memo: &'s mut Memo,
    /// Nothing: it carries the lifetime of the nodes, without which nothing is known of the shelf once the source is gone.
    pub(crate) nodes: &'a [u8],
}

impl<'s, 'q, 'a, S: Shelf<'a>> Source for ShelfSource<'s, 'q, 'a, S> {
    ghost use Rattle.std.specs.Prelude.{◌≡◌, ℕ, List, Option, Some, refl};
    ghost use Rattle.std.specs.BTreeMap.{get};
    ghost use Rattle.osm_model.specs.Elements.{Element, ref_cmp};
    ghost use Rattle.osm_model.specs.declared.reference.Ref.{Ref};
    ghost use Rattle.std.proofs.Common.{◌∙◌, ◌⊎◌, inl, inr, subst, sym};
    ghost use Rattle.osm_keys.specs.declared.manifest.Manifest.{Manifest};
    ghost use Rattle.tree_node.specs.Shelves.{Stays};
    ghost use Rattle.tree_walk.specs.Uses.{nodes_around};
    ghost use Rattle.tree_walk.specs.WalksGiven.{HasGiven};
    ghost use Rattle.osm_keys.specs.Manifests.{top_among};
    ghost use Rattle.ql_eval.specs.Absences.{HaveIdOf, IsSound};
    ghost use Rattle.ql_syntax.specs.StatementViews.{statements_of};
    ghost use Rattle.ql_syntax.specs.declared.statement.Stmt.{Stmt};
    ghost use Rattle.std.specs.Borrow.{Bor};
    ghost use Rattle.ql_eval.specs.Openings.{IsUnder};
    ghost use Rattle.ql_eval.specs.internal.Objects.{AreAbsent, AreRead, IsGivenOrThere, IsToldAbsent, MayBeAbsentNow, Remembers};
    ghost use Rattle.ql_eval.specs.internal.Remembering.{AreGiven, AreRecalled, IsRemembered, Recalls};
    ghost use Rattle.ql_eval.specs.internal.TrueFaults.{IsTrueUnder};
    ghost use Rattle.std.specs.List.{Contains};
    ghost use Rattle.tree_walk.proofs.shared.WalksGivenLaws.{given_none, given_then, given_weaker};

    ghost holds = { λ o. S.holds o.shelf.now };

    ghost is_fixed = { S.is_fixed };

    ghost used = { λ o. S.used o.shelf.now };

    ghost reads = { λ o p. IsUnder p o.manifest };

    ghost under = { λ o p. IsUnder p o.manifest × Remembers p (S.used o.shelf.now) o.objects.now
        × AreRecalled p (S.used o.shelf.now) o.memo.now.remembered.items };

    ghost knows = { λ o r object. get ref_cmp o.objects.now r ≡ Some object };

    ghost recalls = { λ o how set refs. Recalls o.memo.now.remembered.items how set refs };

    ghost gave = { λ o r. IsGivenOrThere (S.used o.shelf.now) o.manifest o.objects.now r
        ⊎ IsRemembered o.memo.now.remembered.items r };

    ghost may_be_absent = { λ o r. MayBeAbsentNow (statements_of o.statements.now) o.objects.now r };

    ghost tells = { λ o fault. AreAbsent (S.used o.shelf.now) o.manifest o.objects.now
        → AreGiven (IsGivenOrThere (S.used o.shelf.now) o.manifest o.objects.now)
        o.memo.now.remembered.items
        → IsTrueUnder (S.holds o.shelf.now) (S.used o.shelf.now) o.manifest fault };

    ghost later = { λ o n. (o.shelf.ghost_name ≡ n.shelf.ghost_name) × (o.manifest ≡ n.manifest)
        × Stays S.is_fixed (S.holds o.shelf.now) (S.holds n.shelf.now)
        × ((bytes : List ℕ) → S.used o.shelf.now bytes → S.used n.shelf.now bytes)
        × ((r : Ref) (object : Option Element) → get ref_cmp o.objects.now r ≡ Some object
        → get ref_cmp n.objects.now r ≡ Some object)
        × (AreAbsent (S.used o.shelf.now) o.manifest o.objects.now
        → AreAbsent (S.used n.shelf.now) n.manifest n.objects.now)
        × ((r : Ref) → IsGivenOrThere (S.used o.shelf.now) o.manifest o.objects.now r
        → IsGivenOrThere (S.used n.shelf.now) n.manifest n.objects.now r)
        × ((r : Ref) → IsRemembered o.memo.now.remembered.items r
        → IsRemembered n.memo.now.remembered.items r)
        × (AreGiven (IsGivenOrThere (S.used o.shelf.now) o.manifest o.objects.now)
        o.memo.now.remembered.items
        → AreGiven (IsGivenOrThere (S.used n.shelf.now) n.manifest n.objects.now)
        n.memo.now.remembered.items)
        × (o.statements ≡ n.statements)
        × (AreRead (S.used o.shelf.now) o.manifest o.objects.now
        → AreRead (S.used n.shelf.now) n.manifest n.objects.now) };

    ghost walked = { λ o n. HasGiven (top_among n.manifest.tops) (IsSound (MayBeAbsentNow (statements_of n.statements.now) n.objects.now)) (nodes_around S.holds S.used o.shelf.now n.shelf.now)
        o.tally.calls n.tally.calls o.tally.fetches n.tally.fetches };

    ghost itself = { λ o. (refl, refl, (λ x. ((λ _ has. has), (λ has. has))), (λ x has. has), (λ r object known. known), (λ absent. absent), (λ r given. given), (λ r is. is), (λ given. given), refl, (λ read. read)) };

    ghost chained = { λ o n m first second. (
      first.0 ∙ second.0,
      first.1 ∙ second.1,
      (λ x. ((λ e has. (first.2 x).0 e ((second.2 x).0 e has)), (λ has. (second.2 x).1 ((first.2 x).1 has)))),
      (λ x has. second.3 x (first.3 x has)),
      (λ r object known. second.4 r object (first.4 r object known)),
      (λ absent. second.5 (first.5 absent)),
      (λ r given. second.6 r (first.6 r given)),
      (λ r is. second.7 r (first.7 r is)),
      (λ given. second.8 (first.8 given)),
      first.9 ∙ second.9,
      (λ read. second.10 (first.10 read)),
    ) };

    ghost stays = { λ o n later. later.2 };

    ghost grows = { λ o n bytes later has. later.3 bytes has };

    ghost under_reads = { λ o p under. under.0 };

    ghost still_reads = { λ o n p later reads. subst (λ (m : Manifest). IsUnder p m) later.1 reads };

    ghost same_known = { λ o n r object later known. later.4 r object known };

    ghost out_of_memory = { λ o absent kept. tt };

    ghost same_gave = { λ o n r later given. elim given [ inl entry ↦ inl (later.6 r entry) | inr kept ↦ inr (later.7 r kept) ] };

    ghost still_may = { λ o n r later may. elim may [
      | inl asked ↦ inl (subst (λ (s : Bor (List Stmt)). HaveIdOf (statements_of s.now) r) later.9 asked)
      | inr listed ↦ inr (listed.0, listed.1, later.4 listed.0 (Some listed.1) listed.2, listed.3)
    ] };

    ghost listed_may = { λ o name r object known lists. inr (name, object, known, lists) };

    ghost not_there = { λ o r known given absent kept.
        let entry : IsGivenOrThere (S.used o.shelf.now) o.manifest o.objects.now r = elim given [ inl one ↦ one | inr is ↦ kept r is ] in
        (r, elim entry [ inl named ↦ named | inr there ↦ absurd (subst IsToldAbsent (sym known ∙ there.1) tt) ], absent r known) };

    ghost recalled_gave = { λ o how set refs recalls r has. inr (recalls.0, recalls.1, subst (λ (l : List Ref). Contains l r) (sym recalls.2.2) has) };

    ghost recalled_true = { λ o p how set refs recalls is under there. under.2 is how set refs recalls there };

    ghost no_walk = { λ o. given_none (top_among o.manifest.tops) _ (S.holds o.shelf.now) (S.used o.shelf.now) o.tally.calls o.tally.fetches };

    ghost more_walks = { λ o n m first second one two. given_then (top_among m.manifest.tops) _ _ _ _ _ _ _ _ _ _ _ _ second.2
        (given_weaker (top_among m.manifest.tops) _ _ _ _ _ _ _ _ _
        (λ walk sound. record {
          formed = sound.formed;
          absent = λ r fits tree range none. elim (sound.absent r fits tree range none) [
            | inl asked ↦ inl (subst (λ (s : Bor (List Stmt)). HaveIdOf (statements_of s.now) r) second.9 asked)
            | inr listed ↦ inr (listed.0, listed.1, second.4 listed.0 (Some listed.1) listed.2, listed.3)
          ];
        })
        (subst (λ (found : Manifest). HasGiven (top_among found.tops) (IsSound (MayBeAbsentNow (statements_of n.statements.now) n.objects.now))
        (nodes_around S.holds S.used o.shelf.now n.shelf.now) o.tally.calls n.tally.calls o.tally.fetches n.tally.fetches) second.1 one)) two };

    fn announce(&mut self, name: Ref) {
        announce_object(&mut *self.shelf, &self.manifest, name);
    }

    fn has(&mut self, name: Ref) -> Result<bool, EvalFault> {
        look_up(
            self.alloc,
            &mut *self.shelf,
            &self.manifest,
            name,
            &mut self.tally,
            &mut *self.objects,
        )?;
        Ok(self.known(name).is_some())
    }

    fn look_up(&mut self, name: Ref) -> Result<(), EvalFault> {
        look_up(
            self.alloc,
            &mut *self.shelf,
            &self.manifest,
            name,
            &mut self.tally,
            &mut *self.objects,
        )
    }

    fn known(&self, name: Ref) -> Option<&Object> {
        match self.objects.get(&name) {
            Some(object) => object.as_ref(),
            None => None,
        }
    }

    fn recalled(&self, how: Recursion, set: &RefSet) -> Option<&Rc<RefSet>> {
        self.memo.recalled(how, set)
    }

    fn remember(
        &mut self,
        how: Recursion,
        set: Rc<RefSet>,
        refs: Rc<RefSet>,
    ) -> Result<(), AllocError> {
        self.memo.remember(how, set, refs)
    }

    fn names(&mut self, question: &Question<'_>, most: usize) -> Result<RefSet, EvalFault> {
        find_names(
            self.alloc,
            &mut *self.shelf,
            &self.manifest,
            question,
            most,
            &mut self.tally,
        )
    }

    fn count(&mut self, question: &Question<'_>) -> Result<u64, EvalFault> {
        count_names(
            self.alloc,
            &mut *self.shelf,
            &self.manifest,
            question,
            &mut self.tally,
        )
    }

    fn nodes_in(&mut self, area: &BoxArea<'_>, most: usize) -> Result<InBox, EvalFault> {
        find_in_box(
            self.alloc,
            &mut *self.shelf,
            &self.manifest,
            area,
            most,
            &mut self.tally,
        )
    }

    fn count_in(&mut self, area: &BoxArea<'_>) -> Result<u64, EvalFault> {
        count_in_box(
            self.alloc,
            &mut *self.shelf,
            &self.manifest,
            area,
            &mut self.tally,
        )
    }
}
