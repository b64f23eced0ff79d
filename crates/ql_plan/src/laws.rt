//! Laws of plans.

ghost use Rattle.std.specs.Prelude.{◌≡◌, ◌≢◌, [], ◌++◌, ℕ, List, IsSomeAnd};
ghost use Rattle.std.specs.List.{Contains};
ghost use Rattle.std.specs.List.Sorted.{IsPermutation};
ghost use Rattle.std.specs.Option.{option_to_list};
ghost use Rattle.ql_syntax.specs.Filters.{Filter};
ghost use Rattle.ql_plan.specs.Plans.{IsChosen, IsPlan, Planned, filters_in, rest_of, rivals_of};

/// A law: the filters of a statement determine its plan.
pub fn one_plan()
    ensures { (filters : List Filter) (first second : Planned) → IsPlan filters first → IsPlan filters second → first ≡ second }
{}

/// A law: base and rest are the filters, each once.
pub fn rest_and_base()
    ensures { (plan : Planned) → IsPermutation (filters_in plan) (option_to_list plan.base ++ rest_of plan) }
{}

/// A law: what is chosen among rivals is one of them, and has the same rivals.
pub fn choice_stays_among_rivals()
    ensures { (plan chosen : Planned) (counts : List ℕ) → IsChosen plan counts chosen → rivals_of plan ≢ []
        → IsSomeAnd chosen.base (Contains (rivals_of plan)) × (rivals_of chosen ≡ rivals_of plan) }
{}

/// A law: plan and counts determine what is chosen.
pub fn one_choice()
    ensures { (plan first second : Planned) (counts : List ℕ) → IsChosen plan counts first → IsChosen plan counts second → first ≡ second }
{}
