//! What gives each variable a truth value.

ghost use Rattle.std.specs.Prelude.{◌≡◌};
ghost use Rattle.order_ints.specs.Truth.{Valuation, valuation_of, valuation_at};

/// What gives each variable a truth value. Of a list of truth values that of variable 1 stands first,
/// and a variable that it has no place for is false.
pub trait TruthValues: Copy {
    ghost valuation: { Self → Valuation };

    /// The truth value of a variable.
    fn truth(&self, var: u32) -> bool
        ensures { result ≡ valuation self.now var };
}

impl TruthValues for &[bool] {
    ghost valuation = { λ values. valuation_of values.now };

    fn truth(&self, var: u32) -> bool {
        let place = (var as usize).saturating_sub(1);
        if place < self.len() {
            self[place]
        } else {
            false
        }
    }
}

/// A row of a truth table: the truth values of listed variables, each at the place of its variable. Any
/// other variable is false. A look-up is a scan of the variables.
#[derive(Clone, Copy)]
pub struct TruthRow<'a> {
    /// The variables.
    pub vars: &'a [u32],
    /// Their truth values.
    pub values: &'a [bool],
}

impl TruthValues for TruthRow<'_> {
    ghost valuation = { λ row. valuation_at row.vars.now row.values.now };

    fn truth(&self, var: u32) -> bool {
        for place in 0..self.vars.len().min(self.values.len()) {
            if self.vars[place] == var {
                return self.values[place];
            }
        }
        false
    }
}
