//! Equations that state bounds of an integer.

ghost use Rattle.std.specs.Prelude.{◌≡◌, [], ◌∷◌, ◌^◌, ◌<◌, ◌+ℤ◌, pos, unsigned_abs};
ghost use Rattle.order_ints.specs.OrderRange.{IsBounded};
ghost use Rattle.rule_base.specs.Pairs.{first_sought};
ghost use Rattle.rule_base.specs.Stated.{at_least, is_below};

use crate::sought::SoughtEquation;
use order_ints::{Atom, OrdInt, Walk};

/// The value above another by 1.
pub fn next(v: i128) -> i128
    requires { unsigned_abs v < 2 ^ 120 }
    ensures { result ≡ v +ℤ pos 1 }
{
    v + 1
}

impl SoughtEquation {
    /// That an integer is at least a value, if that is looked for. Its time is that of `at`.
    pub fn at_least(self, a: &OrdInt, v: i128) -> Option<(Atom, Atom)>
        requires { IsBounded a.now }
        ensures { result ≡ first_sought self (at_least a.now v ∷ []) }
    {
        self.one(Walk::along(a).at(v), Atom::True)
    }

    /// That an integer is below a value, if that is looked for. Its time is that of `at`.
    pub fn is_below(self, a: &OrdInt, v: i128) -> Option<(Atom, Atom)>
        requires { IsBounded a.now }
        ensures { result ≡ first_sought self (is_below a.now v ∷ []) }
    {
        self.one(Walk::along(a).at(v), Atom::False)
    }
}
