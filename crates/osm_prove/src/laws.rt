//! Laws: what a proof determines, and what determines it.

ghost use Rattle.std.specs.Prelude.{◌≡◌, ℕ, List};
ghost use Rattle.osm_keys.specs.Publications.{Publication};
ghost use Rattle.osm_prove.specs.Proofs.{Lists};
ghost use Rattle.osm_prove.specs.Proved.{IsProofOf};
ghost use Rattle.ql_syntax.specs.Statements.{Statements};

/// A law: bytes list one list of nodes at most.
pub fn one_listing()
    ensures { (bytes : List ℕ) (first second : List (List ℕ)) → Lists bytes first
        → Lists bytes second → first ≡ second }
{}

/// A law: a query has one proof at most over a publication.
pub fn one_proof()
    ensures { (p : Publication) (statements : Statements) (first second : List ℕ)
        → IsProofOf p statements first → IsProofOf p statements second → first ≡ second }
{}
