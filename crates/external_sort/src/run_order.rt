//! The order in which readers give their records: the one with the least key is the greatest, and of several the one of the
//! first run.

ghost use Rattle.std.proofs.Common.{rules};
ghost use Rattle.std.specs.Prelude.{refl};
ghost use Rattle.std.specs.Cmp.{eq_by_cmp_equiv, partial_equiv_from_equiv, partial_order_from_own_ties};
ghost use Rattle.std.specs.Cmp.Rules.{comparing};
ghost use Rattle.std.specs.Ordering.{as_partial_cmp, eq_by_cmp};
ghost use Rattle.external_sort.specs.internal.Turns.{turn_cmp, turn_total};

use crate::run_reader::RunReader;
use std::cmp::Ordering;

impl PartialEq for RunReader {
    ghost eq = { eq_by_cmp turn_cmp };

    ghost laws = { partial_equiv_from_equiv (eq_by_cmp_equiv turn_total) };

    fn eq(&self, other: &RunReader) -> bool {
        self.cmp(other) == Ordering::Equal
    }
}

impl Eq for RunReader {
    ghost laws = { eq_by_cmp_equiv turn_total };
}

impl PartialOrd for RunReader {
    ghost partial_cmp = { as_partial_cmp turn_cmp };

    ghost laws = { partial_order_from_own_ties (Prim.search (comparing, rules)) (Prim.search (comparing, rules)) };

    fn partial_cmp(&self, other: &RunReader) -> Option<Ordering> {
        Some(self.cmp(other))
    }
}

impl Ord for RunReader {
    ghost cmp = { turn_cmp };

    ghost total = { turn_total };

    ghost matches_partial_cmp = { λ x y. refl };

    ghost matches_eq = { λ x y. refl };

    fn cmp(&self, other: &RunReader) -> Ordering {
        other.key().cmp(self.key()).then(other.run.cmp(&self.run))
    }
}
