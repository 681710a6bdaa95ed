//! Truth values read by a view.

ghost use Rattle.std.specs.Prelude.{◌≡◌};
ghost use Rattle.order_ints.specs.Truth.{valuation_of};
ghost use Rattle.state_compile.specs.StandsFor.{read_by};

use order_ints::{Atom, TruthValues, label_of};

/// Truth values read by a view: each variable is as true as its label. A look-up takes constant time.
#[derive(Clone, Copy)]
pub struct StoreReading<'a> {
    /// The label of each variable, that of variable 1 first.
    pub view: &'a [Atom],
    /// The truth value of each variable, that of variable 1 first.
    pub values: &'a [bool],
}

impl TruthValues for StoreReading<'_> {
    ghost valuation = { λ reading. read_by reading.view.now (valuation_of reading.values.now) };

    fn truth(&self, var: u32) -> bool {
        label_of(self.view, var).holds(self.values)
    }
}
