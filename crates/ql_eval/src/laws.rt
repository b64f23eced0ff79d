//! Laws of evaluations.

ghost use Rattle.std.specs.Prelude.{◌≡◌, ℕ};
ghost use Rattle.osm_keys.specs.Publications.{Publication};
ghost use Rattle.ql_meaning.specs.Meanings.{Telling};
ghost use Rattle.ql_syntax.specs.Statements.{Statements};
ghost use Rattle.ql_eval.specs.Work.{WorkOfQuery};

/// A law: a query has one work over a publication, so all mirrors of a set refuse the same queries for a budget.
pub fn one_work()
    ensures { (tell : Telling) (p : Publication) (statements : Statements) (m n : ℕ)
        → WorkOfQuery tell p statements m → WorkOfQuery tell p statements n → m ≡ n }
{}
