//! What an evaluation may do, and what it did.

ghost use Rattle.std.specs.Prelude.{◌≡◌, ◌*◌, ◌+◌, ◌-◌, ◌^◌, ◌<◌, ◌↔◌, IfSome, IsSome, IsTrue, OnErr, OnOk, length, min};
ghost use Rattle.ql_eval.specs.Work.{Passes, step_cost};
ghost use Rattle.ql_eval.specs.internal.Metering.{IsCounted};

use ref_sets::RefSet;
use std::alloc::AllocError;

/// What a step costs, where a byte that is written costs 1.
const STEP: u128 = 100;

/// Counts what an evaluation does, and stops it where that passes a budget.
#[derive(Drop)]
pub(crate) struct Meter {
    /// The budget, if there is one.
    most: Option<u64>,
    /// What was done. It stays at the greatest u128.
    pub(crate) spent: u128,
}

impl Meter {
    /// Nothing was done yet.
    pub(crate) fn new(most: Option<u64>) -> Meter
        ensures { result.spent ≡ 0 }
    {
        Meter { most, spent: 0 }
    }

    /// Counts so many steps. Where the budget is passed now it is refused as memory is, so that the evaluation ends; what
    /// was counted then tells why.
    pub(crate) fn charge(&mut self, steps: usize) -> Result<(), AllocError>
        ensures { IsCounted self.old.spent self.new.spent (step_cost * steps) }
    {
        self.spent = added(self.spent, STEP * steps as u128);
        self.stop()
    }

    /// Counts a step for a statement, and one for each reference of the set that it wrote. Refused as [`Meter::charge`].
    pub(crate) fn charge_run(&mut self, written: &RefSet) -> Result<(), AllocError>
        ensures { IsCounted self.old.spent self.new.spent (step_cost * (1 + length written.now)) }
    {
        let steps = 1 + written.as_slice().len() as u128;
        self.spent = added(self.spent, STEP * steps);
        self.stop()
    }

    /// Counts a step, and so many more. Refused as [`Meter::charge`].
    pub(crate) fn charge_more(&mut self, steps: usize) -> Result<(), AllocError>
        ensures { IsCounted self.old.spent self.new.spent (step_cost * (1 + steps)) }
    {
        self.spent = added(self.spent, STEP * (1 + steps as u128));
        self.stop()
    }

    /// Counts for each of several things a step, and one for each of so many and so many more. Refused as
    /// [`Meter::charge`].
    pub(crate) fn charge_each(
        &mut self,
        count: usize,
        first: usize,
        second: usize,
    ) -> Result<(), AllocError>
        ensures { IsCounted self.old.spent self.new.spent
            (step_cost * (count * (1 + first + second))) }
    {
        let each = 1 + first as u128 + second as u128;
        let steps = (count as u128).saturating_mul(each);
        self.spent = added(self.spent, steps.saturating_mul(STEP));
        self.stop()
    }

    /// Counts bytes that are to be written. Refused as [`Meter::charge`].
    pub(crate) fn charge_bytes(&mut self, bytes: usize) -> Result<(), AllocError>
        ensures { IsCounted self.old.spent self.new.spent bytes }
    {
        self.spent = added(self.spent, bytes as u128);
        self.stop()
    }

    /// Counts so much work as was counted for the same before. Refused as [`Meter::charge`].
    pub(crate) fn charge_again(&mut self, work: u128) -> Result<(), AllocError>
        ensures { IsCounted self.old.spent self.new.spent work }
    {
        self.spent = added(self.spent, work);
        self.stop()
    }

    /// Whether there is a budget.
    pub(crate) fn is_limited(&self) -> bool
        ensures { IsTrue result ↔ IsSome self.now.most }
    {
        self.most.is_some()
    }

    /// How many steps may still be done.
    pub(crate) fn room(&self) -> usize {
        match self.most {
            Some(most) => ((most as u128).saturating_sub(self.spent) / STEP) as usize,
            None => usize::MAX,
        }
    }

    /// Refused as [`Meter::charge`] where so many more steps pass the budget. They are known to be part of the work, and are
    /// counted then, though they aren't done: the evaluation ends. Where they don't pass it nothing is counted.
    pub(crate) fn afford(&mut self, steps: u64) -> Result<(), AllocError>
        ensures same { OnOk result (self.new.spent ≡ self.old.spent) }
        ensures within { OnOk result (¬ Passes self.old.most (self.old.spent + step_cost * steps)) }
        ensures counted { OnErr result
            (IsCounted self.old.spent self.new.spent (step_cost * steps)) }
        ensures passed { OnErr result (Passes self.old.most self.new.spent) }
    {
        let before = self.spent;
        self.spent = added(before, STEP * steps as u128);
        if self.passes(self.most) {
            return Err(AllocError);
        }
        self.spent = before;
        Ok(())
    }

    /// Refused where the budget is passed.
    fn stop(&self) -> Result<(), AllocError> {
        if self.is_passed() {
            return Err(AllocError);
        }
        Ok(())
    }

    /// Whether more was done than the budget has.
    pub(crate) fn is_passed(&self) -> bool
        ensures { IsTrue result ↔ Passes self.now.most self.now.spent }
    {
        self.passes(self.most)
    }

    /// Whether more was done than a budget has.
    pub(crate) fn passes(&self, most: Option<u64>) -> bool
        ensures told { IsTrue result ↔ Passes most self.now.spent }
        // As its type says.
        ensures fits { IfSome most (λ budget. budget < 2 ^ 64) }
    {
        match most {
            Some(most) => self.spent > most as u128,
            None => false,
        }
    }

    /// What was done, or the greatest u64 where it is more.
    pub(crate) fn told(&self) -> u64
        ensures { result ≡ min self.now.spent (2 ^ 64 - 1) }
    {
        if self.spent > u64::MAX as u128 {
            u64::MAX
        } else {
            self.spent as u64
        }
    }
}

/// The sum, or the greatest u128 where it is more.
fn added(spent: u128, amount: u128) -> u128
    ensures { IsCounted spent result amount }
{
    match spent.checked_add(amount) {
        Some(sum) => sum,
        None => u128::MAX,
    }
}
