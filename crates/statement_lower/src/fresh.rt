//! Fresh integers, and how many values the part of a division has that a statement doesn't name.

ghost use Rattle.std.specs.Prelude.{◌≡◌, ◌+◌, ◌<◌, ◌^◌, pos, ◌-ℤ◌, unsigned_abs, IfOk};
ghost use Rattle.order_ints.specs.OrderRange.{IsBounded};
ghost use Rattle.model_meaning.specs.Domains.{at_least_zero};
ghost use Rattle.statement_lower.specs.Lines.{fresh_range, most_remainder, most_quotient};

use order_ints::OrdInt;
use std::alloc::{AllocError, Global};

/// A fresh integer from 0 to `most`, behind so many variables.
pub(crate) fn fresh_range(alloc: Global, vars: u32, most: u32) -> Result<OrdInt, AllocError>
    requires { vars + most < 2 ^ 27 }
    ensures { IfOk result (λ a. a ≡ fresh_range vars most) }
{
    OrdInt::unit_range(alloc, 0, vars + 1, most)
}

/// A number, or 0 where it is negative.
fn at_least_zero(number: i128) -> u128
    ensures { result ≡ at_least_zero number }
{
    if number < 0 { 0 } else { number.unsigned_abs() }
}

/// A number less one.
fn less_one(number: i128) -> i128
    requires { unsigned_abs number < 2 ^ 100 }
    ensures { result ≡ number -ℤ pos 1 }
{
    number - 1
}

/// The greatest remainder of a division.
pub(crate) fn most_remainder(dividend: &OrdInt, divisor: &OrdInt) -> u128
    requires dividend { IsBounded dividend.now }
    requires divisor { IsBounded divisor.now }
    ensures { result ≡ most_remainder dividend.now divisor.now }
{
    let below = at_least_zero(less_one(divisor.high()));
    at_least_zero(dividend.high()).min(below)
}

/// The greatest quotient of a division.
pub(crate) fn most_quotient(dividend: &OrdInt, divisor: &OrdInt) -> u128
    requires dividend { IsBounded dividend.now }
    requires divisor { IsBounded divisor.now }
    ensures { result ≡ most_quotient dividend.now divisor.now }
{
    let least = at_least_zero(divisor.low());
    if least == 0 {
        return 0;
    }
    at_least_zero(dividend.high()) / least
}
