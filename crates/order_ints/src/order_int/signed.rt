//! Signed arithmetic within the limits of an integer's values.

ghost use Rattle.std.specs.Prelude.{◌≡◌, ◌≤◌, ◌^◌, ◌<◌, ℤ, pos, neg_ℤ, ◌+ℤ◌, ◌-ℤ◌};
ghost use Rattle.std.specs.Prelude.{◌*ℤ◌, ◌<ℤ◌, unsigned_abs};

/// A value raised by a weight.
pub(super) fn raised(value: i128, by: u128) -> i128
    requires from { unsigned_abs value < 2 ^ 100 }
    requires to { unsigned_abs (value +ℤ pos by) < 2 ^ 100 }
    ensures { result ≡ value +ℤ pos by }
{
    value + by as i128
}

/// A value lowered by a weight.
pub(super) fn lowered(value: i128, by: u128) -> i128
    requires from { unsigned_abs value < 2 ^ 100 }
    requires to { unsigned_abs (value -ℤ pos by) < 2 ^ 100 }
    ensures { result ≡ value -ℤ pos by }
{
    value - by as i128
}

/// How far a value is above another.
pub(super) fn gap(low: i128, high: i128) -> u128
    requires ascending { low <ℤ high }
    requires from { unsigned_abs low < 2 ^ 100 }
    requires to { unsigned_abs high < 2 ^ 100 }
    ensures { result ≡ unsigned_abs (high -ℤ low) }
{
    (high - low).unsigned_abs()
}

/// Minus a value.
pub(super) fn minus(value: i128) -> i128
    requires { unsigned_abs value < 2 ^ 100 }
    ensures { result ≡ neg_ℤ value }
{
    -value
}

/// Two values, added up.
pub(super) fn sum(value: i128, by: i128) -> i128
    requires { unsigned_abs (value +ℤ by) < 2 ^ 100 }
    ensures { result ≡ value +ℤ by }
{
    value + by
}

/// A value, multiplied.
pub(super) fn product(value: i128, by: i128) -> i128
    requires { unsigned_abs (by *ℤ value) < 2 ^ 100 }
    ensures { result ≡ by *ℤ value }
{
    by * value
}
