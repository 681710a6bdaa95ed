//! Integers of one value.

ghost use Rattle.std.specs.Prelude.{◌≡◌};
ghost use Rattle.rule_base.specs.Constant.{is_constant};

use order_ints::OrdInt;

/// Whether an integer has one value.
pub fn is_constant(a: &OrdInt) -> bool
    ensures { result ≡ is_constant a.now }
{
    a.steps.is_empty()
}
