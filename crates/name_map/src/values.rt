//! What a declared name stands for.

ghost use Rattle.std.specs.Prelude.{◌≡◌};
ghost use Rattle.order_ints.specs.Truth.{valuation_of};
ghost use Rattle.order_ints.specs.Numbers.{number_of};
ghost use Rattle.name_map.specs.Values.{is_boolean, is_boolean_kind, IsBoundedValue};

use model_meaning::Kind;
use order_ints::MapValue;

/// Whether a name is a Boolean, by what it stands for.
pub fn is_boolean(value: &MapValue) -> bool
    ensures { result ≡ is_boolean value.now }
{
    match value {
        MapValue::Bool(_) => true,
        MapValue::Int(_) => false,
    }
}

/// Whether a declaration is of a Boolean.
pub fn is_boolean_kind(kind: &Kind) -> bool
    ensures { result ≡ is_boolean_kind kind.now }
{
    match kind {
        Kind::Bool => true,
        Kind::Range { .. } | Kind::Listed { .. } => false,
    }
}

/// The number that a name has under values, of which that of variable 1 stands first; that of a Boolean is 0 or 1.
pub fn number_under(value: &MapValue, values: &[bool]) -> i128
    requires { IsBoundedValue value.now }
    ensures { result ≡ number_of (valuation_of values.now) value.now }
{
    match value {
        MapValue::Bool(atom) => i128::from(atom.holds(values)),
        MapValue::Int(integer) => integer.value(values),
    }
}
