//! What the work of a query bounds.

ghost use Rattle.std.specs.Prelude.{◌≤◌, ◌*◌, ◌+◌, ℕ, List, length};
ghost use Rattle.osm_model.specs.declared.reference.Ref.{Ref};
ghost use Rattle.osm_keys.specs.Publications.{Publication};
ghost use Rattle.ql_syntax.specs.Statements.{Statements};
ghost use Rattle.ql_meaning.specs.Meanings.{Means_by, Telling};
ghost use Rattle.ref_sets.specs.NamedSets.{nothing_named};
ghost use Rattle.ql_eval.specs.Work.{WorkOfQuery, step_cost};
ghost use Rattle.ql_work_laws.specs.WrittenSets.{IsWrittenIn};

/// A law: an answer has no more bytes than its query's work. So a budget of work bounds the bytes of each answer.
pub fn answers_fit_their_work()
    ensures { (tell : Telling) (p : Publication) (statements : Statements) (text : List ℕ) (n : ℕ)
        → Means_by tell p.objects statements text → WorkOfQuery tell p statements n
        → length text ≤ n }
{}

/// A law: each set that a statement of a query writes, whether it stands by itself or in a union or a difference, has fewer
/// references than its query's work has steps. So a budget of work bounds the sets that a query holds.
pub fn sets_fit_their_work()
    ensures { (tell : Telling) (p : Publication) (statements : Statements) (set : List Ref) (n : ℕ)
        → IsWrittenIn p.objects statements nothing_named set → WorkOfQuery tell p statements n
        → step_cost * (1 + length set) ≤ n }
{}
