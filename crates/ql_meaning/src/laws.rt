//! Laws of the meaning of queries.

ghost use Rattle.std.specs.Prelude.{◌≡◌, ℕ, List, ◌++◌, ◌⊎◌, ◌↔◌, None, Option, Some, filter};
ghost use Rattle.std.specs.List.{Contains};
ghost use Rattle.std.specs.List.Sorted.{IsStrictlySortedBy};
ghost use Rattle.osm_model.specs.declared.out_mode.OutMode.{OutMode};
ghost use Rattle.osm_model.specs.Elements.{Element, ref_cmp, references};
ghost use Rattle.osm_model.specs.Sets.{IsObjectSet};
ghost use Rattle.osm_model.specs.declared.reference.Ref.{Ref};
ghost use Rattle.ql_syntax.specs.Filters.{Filter};
ghost use Rattle.ql_syntax.specs.Statements.{Statements};
ghost use Rattle.ql_syntax.specs.declared.pick.Pick.TheVariants as picks;
ghost use Rattle.ql_meaning.specs.Meanings.{Means, Means_by, Telling, cut, is_in, printed_of};
ghost use Rattle.ref_sets.specs.NamedSets.{Env};
ghost use Rattle.ql_meaning.specs.Values.{IsChain, IsParent, IsSelected};

/// A law: a query means one text over a set of objects.
pub fn one_meaning()
    ensures { (objects : List Element) (statements : Statements) (first second : List ℕ)
        → IsObjectSet objects → Means objects statements first → Means objects statements second
        → first ≡ second }
{}

/// A law: however objects are told, a query means one text over a set of them.
pub fn one_meaning_by()
    ensures { (tell : Telling) (objects : List Element) (statements : Statements)
        (first second : List ℕ) → IsObjectSet objects → Means_by tell objects statements first
        → Means_by tell objects statements second → first ≡ second }
{}

/// A law: `nwr` takes just what `node`, `way` and `rel` with the same filters take together.
pub fn nwr_is_all_kinds()
    ensures { (objects : List Element) (env : Env) (filters : List Filter) (o : Element)
        → IsSelected objects env picks.Nwr filters o
        ↔ (IsSelected objects env picks.Node filters o ⊎ (IsSelected objects env picks.Way filters o
        ⊎ IsSelected objects env picks.Rel filters o)) }
{}

/// A law: a number in an out cuts what it prints off, and changes nothing of what comes before.
pub fn out_number_cuts()
    ensures { (objects : List Element) (refs : List Ref) (mode : OutMode) (most : ℕ)
        → (rest : List ℕ) × (printed_of objects refs mode None
        ≡ printed_of objects refs mode (Some most) ++ rest) }
{}

/// A law: an out prints each object once, by kind and rising id.
pub fn printed_once_in_order()
    ensures { (objects : List Element) (refs : List Ref) (limit : Option ℕ) → IsObjectSet objects
        → IsStrictlySortedBy ref_cmp (references (cut limit (filter (λ o. is_in refs o) objects))) }
{}

/// A law: a chain ends at an object just where one link leads to it, or a chain leads to some object and a link from
/// there to it. So what `>>` and `<<` give is closed under links.
pub fn chains_link_by_link()
    ensures { (objects : List Element) (first last : Element) → IsChain objects first last
        ↔ (IsParent objects first last ⊎ ((next : Element) × IsChain objects first next
        × IsParent objects next last)) }
{}

/// A law: the meaning of a query depends on the set of the objects alone: two lists of sets with the same members give
/// the same texts.
pub fn order_is_no_matter()
    ensures { (first second : List Element) (statements : Statements) (text : List ℕ)
        → IsObjectSet first → IsObjectSet second → ((o : Element) → Contains first o
        ↔ Contains second o)
        → Means first statements text → Means second statements text }
{}

/// A law: a query has a meaning over every list of objects. By `one_meaning` it is the only one over a set.
pub fn has_meaning()
    ensures { (objects : List Element) (statements : Statements) → (text : List ℕ)
        × Means objects statements text }
{}

/// A law: and so it has a meaning, however objects are told.
pub fn has_meaning_by()
    ensures { (tell : Telling) (objects : List Element) (statements : Statements)
        → (text : List ℕ) × Means_by tell objects statements text }
{}
