//! The values of a fresh integer that stands for the sum of two integers.

ghost use Rattle.std.specs.Prelude.{◌≡◌, ◌+◌, ◌*◌, ◌++◌, ◌^◌, ◌<◌, ◌≤◌, ◌+ℤ◌};
ghost use Rattle.std.specs.Prelude.{pos, map, unsigned_abs, length, IfOk, OnOk};
ghost use Rattle.order_ints.specs.OrderRange.{IsBounded};
ghost use Rattle.order_ints.specs.OrderLevels.{values_of};
ghost use Rattle.order_ints.specs.OrderMade.{AreAscending, AreSmall};
ghost use Rattle.core_cost.specs.Sums.{fresh_sum_of};
ghost use Rattle.core_forms.specs.WellFormed.{IsSound, greatest_abs};
ghost use Rattle.core_forms.specs.Shapes.{shape_of};
ghost use Rattle.core_forms.specs.Sums.{ascending, pair_sums, spaced, sums_of};

use crate::shapes::{shape, steps};
use core_cost::fresh_sum;
use order_ints::OrdInt;
use std::alloc::{AllocError, Global};

/// Two values, added up.
fn added(value: i128, other: i128) -> i128
    requires value { unsigned_abs value < 2 ^ 100 }
    requires other { unsigned_abs other < 2 ^ 100 }
    ensures { result ≡ value +ℤ other }
{
    value + other
}

/// The number above another by a gap.
fn next(value: i128, gap: u128) -> i128
    requires value { unsigned_abs value < 2 ^ 103 }
    requires gap { gap < 2 ^ 103 }
    ensures { result ≡ value +ℤ pos gap }
{
    value + gap as i128
}

/// Puts a value and each value of an integer, added up, behind those of a list.
fn put_sums(sums: &mut Vec<i128>, value: i128, b: &OrdInt) -> Result<(), AllocError>
    requires value { unsigned_abs value < 2 ^ 100 }
    requires b { IsBounded b.now }
    ensures { OnOk result (sums.new.items ≡ sums.old.items ++ map (λ w. value +ℤ w) (values_of b.now)) }
{
    for (other, _) in b.levels() {
        sums.push(added(value, other))?;
    }
    Ok(())
}

/// The different sums of a value of one integer and a value of another, ascending.
fn different_sums(alloc: Global, a: &OrdInt, b: &OrdInt) -> Result<Vec<i128>, AllocError>
    requires a { IsBounded a.now }
    requires b { IsBounded b.now }
    ensures { IfOk result (λ sums. sums.items ≡ ascending (pair_sums (values_of a.now) (values_of b.now))) }
{
    let mut sums = Vec::new(alloc);
    for (value, _) in a.levels() {
        put_sums(&mut sums, value, b)?;
    }
    sums.sort_unstable();
    sums.dedup();
    Ok(sums)
}

/// The numbers from one on, with so many gaps of one width between them.
fn spaced_sums(alloc: Global, low: i128, gap: u128, gaps: u128) -> Result<Vec<i128>, AllocError>
    requires low { unsigned_abs low < 2 ^ 101 }
    requires span { gaps * gap < 2 ^ 102 }
    ensures { IfOk result (λ sums. sums.items ≡ spaced low gap (gaps + 1)) }
{
    let mut sums = Vec::new(alloc);
    let mut value = low;
    sums.push(value)?;
    for _ in 0..gaps {
        value = next(value, gap);
        sums.push(value)?;
    }
    Ok(sums)
}

/// The values of a fresh sum: the different sums where these are no more than the spaced ones.
fn listed_sums(alloc: Global, a: &OrdInt, b: &OrdInt) -> Result<Vec<i128>, AllocError>
    requires a { IsSound a.now }
    requires b { IsSound b.now }
    ensures { IfOk result (λ sums. sums.items ≡ sums_of a.now b.now) }
{
    let fresh = fresh_sum(shape(a), shape(b));
    let (first, second) = (steps(a), steps(b));
    if fresh.steps == first * second + first + second {
        different_sums(alloc, a, b)
    } else {
        spaced_sums(alloc, added(a.low(), b.low()), fresh.divisor, fresh.steps)
    }
}

/// The values of a fresh integer that stands for the sum of two integers: the different sums of their
/// values, or, where these numbers are fewer, each number between the least and the greatest sum that
/// is apart from the least by a multiple of the greatest common divisor of all weights. It takes the
/// time of one sort of what it gives, with repeats.
pub fn sums(alloc: Global, a: &OrdInt, b: &OrdInt) -> Result<Vec<i128>, AllocError>
    requires a { IsSound a.now }
    requires b { IsSound b.now }
    requires limit { greatest_abs a.now + greatest_abs b.now < 2 ^ 100 }
    ensures shape { IfOk result (λ sums. sums.items ≡ sums_of a.now b.now) }
    ensures some { IfOk result (λ sums. 0 < length sums.items) }
    ensures ascending { IfOk result (λ sums. AreAscending sums.items) }
    ensures small { IfOk result (λ sums. AreSmall sums.items) }
    ensures steps { IfOk result (λ sums. length sums.items
        ≤ (fresh_sum_of (shape_of a.now) (shape_of b.now)).steps + 1) }
{
    listed_sums(alloc, a, b)
}
