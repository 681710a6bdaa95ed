//! The value of an integer, and whether it is ordered.

ghost use Rattle.std.specs.Prelude.{◌≡◌, ◌^◌, ◌<◌, unsigned_abs};
ghost use Rattle.order_ints.specs.OrderValue.{value_of, in_order};
ghost use Rattle.order_ints.specs.OrderRange.{IsBounded};

use super::OrdInt;
use super::signed::raised;
use crate::truth_values::TruthValues;

impl OrdInt {
    #[tactic(auto, using(crate::proofs::Gains::gain_bounds))]
    /// The value: one pass over the steps.
    pub fn value<T: TruthValues>(&self, sigma: T) -> i128
        requires { IsBounded self.now }
        ensures value { result ≡ value_of (T.valuation sigma) self.now }
        ensures range { unsigned_abs result < 2 ^ 100 }
    {
        let mut gained: u128 = 0;
        for step in self.steps.as_slice() {
            if step.0.holds(sigma) {
                gained += step.1;
            }
        }
        raised(self.base, gained)
    }

    /// Whether no true step follows a false one.
    pub fn is_ordered<T: TruthValues>(&self, sigma: T) -> bool
        ensures { result ≡ in_order (T.valuation sigma) self.now.steps }
    {
        let mut all_true = true;
        for step in self.steps.as_slice() {
            if !step.0.holds(sigma) {
                all_true = false;
            } else if !all_true {
                return false;
            }
        }
        true
    }
}
