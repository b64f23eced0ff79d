//! What an evaluation asks.

ghost use Rattle.std.specs.Prelude.{Bool, ◌≡◌, ◌↔◌, ℕ, IfErr, IfOk, IfSome, IsTrue, List, None, OnOk, Option, Some};
ghost use Rattle.std.specs.Option.{option_copied};
ghost use Rattle.osm_model.specs.Elements.{Element};
ghost use Rattle.osm_model.specs.Membership.{BodyLists};
ghost use Rattle.osm_model.specs.Sets.{object_at};
ghost use Rattle.osm_model.specs.declared.reference.Ref.{Ref};
ghost use Rattle.tree_node.specs.Outcomes.{Outcome};
ghost use Rattle.tree_node.specs.Shelves.{SameNodes, Stays};
ghost use Rattle.osm_keys.specs.Grains.{grain_of};
ghost use Rattle.osm_keys.specs.Publications.{IsPublication, Publication};
ghost use Rattle.ref_sets.specs.Sets.{IsSetOf};
ghost use Rattle.ql_meaning.specs.Values.{IsRefOf};
ghost use Rattle.ql_eval.specs.Asks.{IsAskedInBox};
ghost use Rattle.ql_eval.specs.internal.Affording.{IsSizeOf, IsWithinSet, Within};
ghost use Rattle.ql_eval.specs.internal.Boxes.{IsInBox};
ghost use Rattle.ql_eval.specs.Work.{IsInCellsOf};
ghost use Rattle.ql_eval.specs.Faults.{cause_of_evaluation};
ghost use Rattle.ql_eval.specs.Questions.{Answers, IsCountOf, NeededBy, NeedsAsk, count_ask, line_ask, names_ask, object_ask};
ghost use Rattle.ql_eval.specs.internal.Entries.{HasNoNulIn, IsThere};
ghost use Rattle.ql_eval.specs.declared.fault.EvalFault.{EvalFault};
ghost use Rattle.ql_eval.specs.declared.fault.EvalFault.TheVariants.{Absent, Memory};
ghost use Rattle.ql_syntax.specs.declared.recursion.Recursion.{Recursion};
ghost use Rattle.ql_eval.specs.internal.Giving.{AllGiven};
ghost use Rattle.ql_eval.specs.internal.Links.{AreThere};
ghost use Rattle.ql_eval.specs.internal.Remembering.{IsRecalled};
ghost use Rattle.ql_eval.specs.internal.Truths.{EndsTruly, StaysTrue};
ghost use Rattle.ql_eval.specs.internal.Views.{question_of};
ghost use Rattle.tree_walk.specs.Uses.{nodes_around};

use crate::boxes::InBox;
use crate::fault::EvalFault;
use crate::question::Question;
use osm_model::{BoxArea, Object, Ref};
use ql_syntax::Recursion;
use ref_sets::RefSet;
use std::alloc::AllocError;
use std::rc::Rc;

/// What an evaluation asks: the trees under a manifest, read from a shelf. It stands without the shelf's lifetime, so
/// that statements are run over any of them.
pub(crate) trait Source {
    /// The nodes that the shelf holds.
    ghost holds: { Self → List ℕ → Type 0 };

    /// Whether they never change.
    ghost is_fixed: { Bool };

    /// Those that were used.
    ghost used: { Self → List ℕ → Type 0 };

    /// The manifest is that of the publication.
    ghost reads: { Self → Publication → Type 0 };

    /// And what is remembered of its objects is true. A later moment alone doesn't keep it, since a call may learn from nodes
    /// that clash: each call says what becomes of it.
    ghost under: { Self → Publication → Type 0 };

    /// The same source at a later moment.
    ghost later: { Self → Self → Type 0 };

    /// From one moment to a later one nodes were used by walks alone, and all walks are counted.
    ghost walked: { Self → Self → Type 0 };

    /// What the source knows of a reference that was looked up: its object, or none where there is none.
    ghost knows: { Self → Ref → Option Element → Type 0 };

    /// An entry that the nodes used so far give names this object, or a look-up found it.
    ghost gave: { Self → Ref → Type 0 };

    /// The object with this reference may turn out not to be there: the query has its id, or an object that was looked up
    /// lists it.
    ghost may_be_absent: { Self → Ref → Type 0 };

    /// It is remembered that this recursion from this set gave this.
    ghost recalls: { Self → Recursion → List Ref → List Ref → Type 0 };

    /// What is true of the nodes if this fault is told now.
    ghost tells: { Self → EvalFault → Type 0 };

    /// A hint: the object with this reference will be looked up.
    fn announce(&mut self, name: Ref)
        ensures later { later self.old self.new }
        ensures walked { walked self.old self.new }
        ensures truly { StaysTrue under self.old self.new }
        ensures used { SameNodes (used self.old) (used self.new) };

    /// Whether the object with this reference is there, which needn't be so.
    fn has(&mut self, name: Ref) -> Result<bool, EvalFault>
        requires { may_be_absent self.old name }
        ensures later { later self.old self.new }
        ensures walked { OnOk result (walked self.old self.new) }
        ensures told { IfErr result (tells self.new) }
        ensures named { IfOk result (λ is. IsTrue is → gave self.new name) }
        ensures answer { (p : Publication) → IsPublication p → under self.old p
            → EndsTruly holds used under self.old self.new p
            (λ is. IsTrue is ↔ IsThere p.objects name)
            (NeedsAsk p (object_ask name)) result };

    /// Looks up the object with this reference, which an entry has named, unless that was done before. Afterwards it is known.
    /// A walk counts as one of a sound evaluation only if it found the object, or the object may be absent.
    fn look_up(&mut self, name: Ref) -> Result<(), EvalFault>
        requires { gave self.old name }
        ensures later { later self.old self.new }
        ensures walked { OnOk result
            ((knows self.new name None → may_be_absent self.new name) → walked self.old self.new) }
        ensures told { IfErr result (tells self.new) }
        ensures known { OnOk result ((object : Option Element) × knows self.new name object) }
        ensures answer { (p : Publication) → IsPublication p → under self.old p
            → EndsTruly holds used under self.old self.new p
            (λ _. knows self.new name (object_at p.objects name))
            (NeedsAsk p (line_ask (grain_of p.edition) name)) result };

    /// The object with a reference that was looked up, if it is there.
    fn known(&self, name: Ref) -> Option<&Object>
        ensures { (object : Option Element) → knows self.now name object
            → option_copied result ≡ object };

    /// The objects that a question is after, as a set. Refused as memory is where there are more entries than `most`.
    fn names(&mut self, question: &Question<'_>, most: usize) -> Result<RefSet, EvalFault>
        ensures later { later self.old self.new }
        ensures walked { OnOk result (walked self.old self.new) }
        ensures told { IfErr result (tells self.new) }
        ensures named { IfOk result (AllGiven (gave self.new)) }
        ensures answer { (p : Publication) → IsPublication p → under self.old p
            → HasNoNulIn (question_of question.now)
            → EndsTruly holds used under self.old self.new p
            (λ names. IsSetOf names (IsRefOf p.objects (Answers (question_of question.now))))
            (NeedsAsk p (names_ask (question_of question.now))) result };

    /// The number of entries that a question's range has.
    fn count(&mut self, question: &Question<'_>) -> Result<u64, EvalFault>
        ensures later { later self.old self.new }
        ensures walked { OnOk result (walked self.old self.new) }
        ensures told { IfErr result (tells self.new) }
        ensures truly { StaysTrue under self.old self.new }
        ensures answer { (p : Publication) → IsPublication p → reads self.old p
            → Outcome cause_of_evaluation (IsCountOf p (question_of question.now))
            (NeedsAsk p (count_ask (question_of question.now)))
            (nodes_around holds used self.old self.new) result };

    /// The nodes in a box, as a set, and how many nodes the cells have that it meets. Refused as memory is where there are
    /// more entries than `most`.
    fn nodes_in(&mut self, area: &BoxArea<'_>, most: usize) -> Result<InBox, EvalFault>
        ensures later { later self.old self.new }
        ensures walked { OnOk result (walked self.old self.new) }
        ensures told { IfErr result (tells self.new) }
        ensures named { IfOk result (λ found. AllGiven (gave self.new) found.nodes) }
        ensures answer { (p : Publication) → IsPublication p → under self.old p
            → EndsTruly holds used under self.old self.new p
            (λ found. IsSetOf found.nodes (IsRefOf p.objects (IsInBox area.now)))
            (NeededBy p (IsAskedInBox p area.now)) result }
        ensures read { (p : Publication) → IsPublication p → reads self.old p
            → Outcome cause_of_evaluation
            (λ found. IsSizeOf
            (IsRefOf p.objects (IsInCellsOf (grain_of p.edition) area.now)) found.read)
            (NeededBy p (IsAskedInBox p area.now))
            (nodes_around holds used self.old self.new) result };

    /// How many nodes the cells have at least that a box meets. It uses only nodes that reading them uses too.
    fn count_in(&mut self, area: &BoxArea<'_>) -> Result<u64, EvalFault>
        ensures later { later self.old self.new }
        ensures walked { OnOk result (walked self.old self.new) }
        ensures told { IfErr result (tells self.new) }
        ensures truly { StaysTrue under self.old self.new }
        ensures answer { (p : Publication) → IsPublication p → reads self.old p
            → Within cause_of_evaluation
            (IsWithinSet (IsRefOf p.objects (IsInCellsOf (grain_of p.edition) area.now)))
            (NeededBy p (IsAskedInBox p area.now))
            (nodes_around holds used self.old self.new) result };

    /// What a recursion gave from a set, if that is remembered.
    fn recalled(&self, how: Recursion, set: &RefSet) -> Option<&Rc<RefSet>>
        ensures { IfSome result (λ refs. recalls self.now how set.now refs.now.value) };

    /// Remembers what a recursion gave from a set, if there is room for it.
    fn remember(
        &mut self,
        how: Recursion,
        set: Rc<RefSet>,
        refs: Rc<RefSet>,
    ) -> Result<(), AllocError>
        requires { AllGiven (gave self.old) refs.value }
        ensures later { later self.old self.new }
        ensures walked { walked self.old self.new }
        ensures truly { (p : Publication) → IsPublication p → under self.old p
            → (AreThere p.objects set.value
            → IsRecalled p (used self.old) how set.value refs.value)
            → under self.new p }
        ensures used { SameNodes (used self.old) (used self.new) };

    ghost itself: { (s : Self) → later s s };

    ghost chained: { (s t u : Self) → later s t → later t u → later s u };

    ghost stays: { (s t : Self) → later s t → Stays is_fixed (holds s) (holds t) };

    ghost grows: { (s t : Self) (bytes : List ℕ) → later s t → used s bytes → used t bytes };

    ghost under_reads: { (s : Self) (p : Publication) → under s p → reads s p };

    ghost still_reads: { (s t : Self) (p : Publication) → later s t → reads s p → reads t p };

    ghost same_known: { (s t : Self) (r : Ref) (object : Option Element) → later s t
        → knows s r object → knows t r object };

    ghost out_of_memory: { (s : Self) → tells s Memory };

    ghost same_gave: { (s t : Self) (r : Ref) → later s t → gave s r → gave t r };

    ghost still_may: { (s t : Self) (r : Ref) → later s t → may_be_absent s r → may_be_absent t r };

    ghost listed_may: { (s : Self) (name r : Ref) (o : Element) → knows s name (Some o)
        → BodyLists o.body r → may_be_absent s r };

    ghost not_there: { (s : Self) (r : Ref) → knows s r None → gave s r → tells s Absent };

    ghost recalled_gave: { (s : Self) (how : Recursion) (set refs : List Ref)
        → recalls s how set refs → AllGiven (gave s) refs };

    ghost recalled_true: { (s : Self) (p : Publication) (how : Recursion) (set refs : List Ref)
        → recalls s how set refs → IsPublication p → under s p → AreThere p.objects set
        → IsRecalled p (used s) how set refs };

    ghost no_walk: { (s : Self) → walked s s };

    ghost more_walks: { (s t u : Self) → later s t → later t u → walked s t → walked t u
        → walked s u };
}
