//! Laws: what verdicts say of a publication whose root it is.

ghost use Rattle.std.specs.Prelude.{◌≡◌, ◌⊎◌, ℕ, List};
ghost use Rattle.tree_node.specs.Outcomes.{Clash};
ghost use Rattle.osm_keys.specs.Publications.{IsNodeIn, IsPublication, Publication, root_of};
ghost use Rattle.osm_check.specs.Verdicts.{AreAlike, IsVerdict, StandsIn, TellsOf};
ghost use Rattle.osm_check.specs.declared.verdict.Verdict.{Verdict};

/// A law: what a verdict says where the root is that of a publication, whichever it is; unless a node of the
/// publication and a different one in the proof have the same digest.
pub fn under_root()
    ensures { (query answer proof : List ℕ) (p : Publication) (verdict : Verdict) → IsPublication p
        → IsVerdict query (root_of p) answer proof verdict
        → TellsOf p query answer proof verdict ⊎ Clash (IsNodeIn p) (StandsIn proof) }
{}

/// A law: of a publication one verdict at most is true, but for what a yes counts.
pub fn one_verdict()
    ensures { (query answer proof : List ℕ) (p : Publication) (first second : Verdict)
        → IsPublication p
        → TellsOf p query answer proof first → TellsOf p query answer proof second
        → AreAlike first second }
{}
