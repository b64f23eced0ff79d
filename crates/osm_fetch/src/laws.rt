//! Laws of what is fetched.

ghost use Rattle.std.specs.Prelude.{◌≡◌, ◌⊎◌, ℕ, List};
ghost use Rattle.tree_node.specs.Outcomes.{Clash};
ghost use Rattle.osm_keys.specs.Publications.{IsNodeIn, IsPublication, Publication, root_of};
ghost use Rattle.osm_check.specs.Telling.{IsProvedIn};
ghost use Rattle.osm_check.specs.Verdicts.{StandsIn};
ghost use Rattle.osm_fetch.specs.Fetching.{Fetching, HasShown, HasProof};

/// A law, which is the headline of the command: under the root of any publication, the text that a mirror's bytes show
/// is the query's meaning over its set in the form that was asked for, unless a node of the publication and a different
/// one in the proof that these bytes hold have the same digest.
pub fn fetched_answers_are_right()
    ensures { (p : Publication) (f : Fetching) (received text : List ℕ) → IsPublication p
        → f.wanted.root ≡ root_of p → HasShown f received text
        → (proof : List ℕ) × HasProof f received proof
        × (IsProvedIn p f.wanted.query f.wanted.form text proof ⊎ Clash (IsNodeIn p) (StandsIn proof)) }
{}
