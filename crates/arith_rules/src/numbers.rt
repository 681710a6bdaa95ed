//! Products and quotients of numbers within the limits, each with its exact value.

ghost use Rattle.std.specs.Prelude.{◌≡◌, ◌^◌, ◌<◌, pos, neg_ℤ, ◌+ℤ◌, ◌*ℤ◌, ◌≤ℤ◌};
ghost use Rattle.std.specs.Prelude.{◌<ℤ◌, unsigned_abs};
ghost use Rattle.std.specs.Int.{int_min, int_max};
ghost use Rattle.arith_rules.specs.ProductRows.{floor_of, ceiling_of};

/// Two numbers, multiplied.
pub(crate) fn product(x: &i128, y: &i128) -> i128
    requires { unsigned_abs (x.now *ℤ y.now) < 2 ^ 101 }
    ensures { result ≡ x.now *ℤ y.now }
{
    *x * *y
}

/// The lesser of two numbers.
pub(crate) fn lesser(x: &i128, y: &i128) -> i128
    ensures { result ≡ int_min x.now y.now }
{
    if *y < *x { *y } else { *x }
}

/// The greater of two numbers.
pub(crate) fn greater(x: &i128, y: &i128) -> i128
    ensures { result ≡ int_max x.now y.now }
{
    if *y < *x { *x } else { *y }
}

/// A number, negated.
fn negated(v: &i128) -> i128
    requires { unsigned_abs v.now < 2 ^ 110 }
    ensures { result ≡ neg_ℤ v.now }
{
    -*v
}

/// The quotient by a divisor from 1, rounded down.
pub(crate) fn floor_of(v: &i128, divisor: &i128) -> i128
    requires value { unsigned_abs v.now < 2 ^ 110 }
    requires divisor { pos 1 ≤ℤ divisor.now }
    ensures shape { result ≡ floor_of v.now divisor.now }
    ensures small { unsigned_abs result < 2 ^ 110 }
{
    v.div_euclid(*divisor)
}

/// The quotient by a divisor from 1, rounded up.
pub(crate) fn ceiling_of(v: &i128, divisor: &i128) -> i128
    requires value { unsigned_abs v.now < 2 ^ 110 }
    requires divisor { pos 1 ≤ℤ divisor.now }
    ensures shape { result ≡ ceiling_of v.now divisor.now }
    ensures small { unsigned_abs result < 2 ^ 110 }
{
    let opposite = negated(v);
    let floor = floor_of(&opposite, divisor);
    negated(&floor)
}

/// 1 more than the quotient by a divisor below 0, rounded down.
pub(crate) fn over_floor_of(v: &i128, divisor: &i128) -> i128
    requires value { unsigned_abs v.now < 2 ^ 110 }
    requires divisor { (divisor.now <ℤ pos 0) × (unsigned_abs divisor.now < 2 ^ 110) }
    ensures { result ≡ floor_of (neg_ℤ v.now) (neg_ℤ divisor.now) +ℤ pos 1 }
{
    let opposite = negated(v);
    let above = negated(divisor);
    let floor = floor_of(&opposite, &above);
    floor + 1
}
