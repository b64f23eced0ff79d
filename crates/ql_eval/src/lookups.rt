//! Questions, asked of a shelf under a manifest.

ghost use Rattle.std.specs.Int.{w64};
ghost use Rattle.std.specs.Prelude.{◌≡◌, ℕ, FitsSigned, IfErr, IfOk, List, OnOk};
ghost use Rattle.tree_node.specs.Outcomes.{Outcome};
ghost use Rattle.tree_node.specs.Shelves.{Stays};
ghost use Rattle.tree_walk.specs.WalksGiven.{HasGiven};
ghost use Rattle.osm_keys.specs.Manifests.{top_among};
ghost use Rattle.osm_keys.specs.Publications.{IsPublication, Publication};
ghost use Rattle.ref_sets.specs.Sets.{IsSetOf};
ghost use Rattle.ql_meaning.specs.Values.{IsRefOf};
ghost use Rattle.ql_eval.specs.Faults.{cause_of_evaluation};
ghost use Rattle.ql_eval.specs.Absences.{IsSound};
ghost use Rattle.ql_eval.specs.internal.Objects.{NeverAbsent};
ghost use Rattle.ql_eval.specs.Openings.{IsUnder};
ghost use Rattle.ql_eval.specs.TrueFaults.{IsNamedIn};
ghost use Rattle.ql_eval.specs.internal.Giving.{AllGiven};
ghost use Rattle.ql_eval.specs.internal.TrueFaults.{IsTrueUnder};
ghost use Rattle.ql_eval.specs.Questions.{Answers, IsCountOf, NeedsAsk, count_ask, names_ask, range_asked, tree_asked};
ghost use Rattle.ql_eval.specs.internal.Entries.{HasNoNulIn, TargetFits};
ghost use Rattle.ql_eval.specs.internal.Views.{question_of};
ghost use Rattle.tree_walk.specs.Uses.{nodes_around};

use crate::entry_names::names_in;
use crate::fault::EvalFault;
use crate::question::Question;
use crate::walks::{count_in, entries_in};
use osm_keys::{Manifest, OwnedRange, back_range, kind_range, tag_key_range, tag_range};
use osm_model::Ref;
use ref_sets::RefSet;
use std::alloc::{AllocError, Global};
use tree_node::{Shelf, Tree};
use tree_walk::Tally;

/// The objects that a question is after, by rising kind and id, each once: one walk over one tree (docs/FORMATS.md).
///
/// Refused where the walk is (E1), where an entry that it found isn't of its tree's form (E2), and where memory runs
/// out. Over the trees of a publisher only a missing node and memory refuse it, unless two nodes have one digest. What
/// was used until then stays used. It is refused as memory is, too, where there are more entries than `most`. Keys and
/// values with a NUL are in no tag; for them other objects may come.
pub(crate) fn find_names<'a, S: Shelf<'a>>(
    alloc: Global,
    shelf: &mut S,
    manifest: &Manifest,
    question: &Question<'_>,
    most: usize,
    tally: &mut Tally,
) -> Result<RefSet, EvalFault>
    ensures stays { Stays S.is_fixed (S.holds shelf.old) (S.holds shelf.new) }
    ensures grows { (bytes : List ℕ) → S.used shelf.old bytes → S.used shelf.new bytes }
    ensures walked { OnOk result (HasGiven (top_among manifest.now.tops) (IsSound NeverAbsent)
        (nodes_around S.holds S.used shelf.old shelf.new)
        tally.old.calls tally.new.calls tally.old.fetches tally.new.fetches) }
    ensures told { IfErr result (IsTrueUnder (S.holds shelf.new) (S.used shelf.new) manifest.now) }
    ensures named { IfOk result (AllGiven (IsNamedIn (S.used shelf.new) manifest.now)) }
    ensures answer { (p : Publication) → IsPublication p → IsUnder p manifest.now
        → HasNoNulIn (question_of question.now)
        → Outcome cause_of_evaluation
        (λ names. IsSetOf names (IsRefOf p.objects (Answers (question_of question.now))))
        (NeedsAsk p (names_ask (question_of question.now)))
        (nodes_around S.holds S.used shelf.old shelf.new) result }
{
    let tree = tree_of(question);
    let keys = keys_of(alloc, question)?;
    let found = entries_in(alloc, shelf, manifest, tree, &keys.as_range(), most, tally)?;
    names_in(alloc, tree, &found)
}

/// The number of entries in a question's range. For a key that is the number of objects that have it.
pub(crate) fn count_names<'a, S: Shelf<'a>>(
    alloc: Global,
    shelf: &mut S,
    manifest: &Manifest,
    question: &Question<'_>,
    tally: &mut Tally,
) -> Result<u64, EvalFault>
    ensures stays { Stays S.is_fixed (S.holds shelf.old) (S.holds shelf.new) }
    ensures grows { (bytes : List ℕ) → S.used shelf.old bytes → S.used shelf.new bytes }
    ensures walked { OnOk result (HasGiven (top_among manifest.now.tops) (IsSound NeverAbsent)
        (nodes_around S.holds S.used shelf.old shelf.new)
        tally.old.calls tally.new.calls tally.old.fetches tally.new.fetches) }
    ensures told { IfErr result (IsTrueUnder (S.holds shelf.new) (S.used shelf.new) manifest.now) }
    ensures answer { (p : Publication) → IsPublication p → IsUnder p manifest.now
        → Outcome cause_of_evaluation (IsCountOf p (question_of question.now))
        (NeedsAsk p (count_ask (question_of question.now)))
        (nodes_around S.holds S.used shelf.old shelf.new) result }
{
    let keys = keys_of(alloc, question)?;
    let count = count_in(
        alloc,
        shelf,
        manifest,
        tree_of(question),
        &keys.as_range(),
        tally,
    )?;
    Ok(count)
}

/// The tree that a question asks.
fn tree_of(question: &Question<'_>) -> Tree
    ensures { result ≡ tree_asked (question_of question.now) }
{
    match question {
        Question::OfKind(_) => Tree::Objects,
        Question::WithTag(_, _, _) => Tree::Tags,
        Question::WithKey(_) => Tree::Tags,
        Question::ThatList(_, _) => Tree::Backs,
    }
}

/// The keys that a question asks for.
fn keys_of(alloc: Global, question: &Question<'_>) -> Result<OwnedRange, AllocError>
    ensures keys { IfOk result (λ keys. keys ≡ range_asked (question_of question.now)) }
    // As its type says.
    ensures fits { TargetFits (question_of question.now) }
{
    match question {
        Question::OfKind(kind) => kind_range(alloc, *kind),
        Question::WithTag(key, value, kind) => tag_range(alloc, key, value, *kind),
        Question::WithKey(key) => tag_key_range(alloc, key),
        Question::ThatList(target, kind) => {
            note_id(*target);
            back_range(alloc, *target, *kind)
        }
    }
}

/// For the proof alone: an id has 64 bits, as its type says.
fn note_id(_name: Ref)
    ensures { FitsSigned w64 _name.id }
{}
