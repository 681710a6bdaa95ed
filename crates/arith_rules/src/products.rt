//! The equations that a product states.

ghost use Rattle.std.specs.Prelude.{◌≡◌, ◌^◌, ◌<◌, pos, ◌≤ℤ◌, ◌<ℤ◌, unsigned_abs};
ghost use Rattle.order_ints.specs.OrderRange.{IsBounded, low_of};
ghost use Rattle.core_forms.specs.WellFormed.{IsSound, HasSmallProducts};
ghost use Rattle.rule_base.specs.Pairs.{first_sought, only_if};
ghost use Rattle.rule_base.specs.Constant.{is_constant};
ghost use Rattle.arith_rules.specs.CodeLinks.{HasSmallMultiples};
ghost use Rattle.arith_rules.specs.Ranges.{IsSmall};
ghost use Rattle.arith_rules.specs.ProductRows.{multiple_equations, negative_equations, scaled_equations, prod_ranges};
ghost use Rattle.arith_rules.specs.ProductRows.{prod_equations};
ghost use Rattle.arith_rules.specs.ProductRanges.{products_of, HaveSmallCorners, factors_of, factor_within};
ghost use Rattle.arith_rules.specs.ProductRanges.{are_unsigned};

use crate::links::{Link, linked, linked_back, opposed, opposed_above};
use crate::numbers::{ceiling_of, floor_of, greater, lesser, product};
use crate::ranges::Range;
use order_ints::{Atom, OrdInt};
use rule_base::{SoughtEquation, is_constant};

/// The least and the greatest of the products of an end of one range and an end of another, each of the
/// four computed once.
fn products_of(x: &Range, y: &Range) -> Range
    requires { HaveSmallCorners x.now y.now }
    ensures shape { result ≡ products_of x.now y.now }
    ensures small { IsSmall result }
{
    let low_low = product(&x.low, &y.low);
    let low_high = product(&x.low, &y.high);
    let high_low = product(&x.high, &y.low);
    let high_high = product(&x.high, &y.high);
    let least_at_low = lesser(&low_low, &low_high);
    let least_at_high = lesser(&high_low, &high_high);
    let greatest_at_low = greater(&low_low, &low_high);
    let greatest_at_high = greater(&high_low, &high_high);
    Range {
        low: lesser(&least_at_low, &least_at_high),
        high: greater(&greatest_at_low, &greatest_at_high),
    }
}

/// What a factor from 0 is at least and at most, where the other is in the first range and the product in
/// the second.
fn factors_of(y: &Range, z: &Range) -> Range
    requires divisor { (pos 1 ≤ℤ y.now.low) × (pos 1 ≤ℤ y.now.high) }
    requires small { (unsigned_abs z.now.low < 2 ^ 100) × (unsigned_abs z.now.high < 2 ^ 100) }
    ensures shape { result ≡ factors_of y.now z.now }
    ensures small { IsSmall result }
{
    Range {
        low: ceiling_of(&z.low, &y.high),
        high: floor_of(&z.high, &y.low),
    }
}

/// Whether two factors and their product have values from 0, and the second factor from 1.
fn are_unsigned(x: &Range, y: &Range, z: &Range) -> bool
    ensures { result ≡ are_unsigned x.now y.now z.now }
{
    0 <= x.low && 1 <= y.low && 0 <= z.low
}

/// The equations of the range of a factor, where no value is below 0.
fn by_factor(
    sought: SoughtEquation,
    a: &OrdInt,
    x: &Range,
    y: &Range,
    z: &Range,
) -> Option<(Atom, Atom)>
    requires bounded { IsBounded a.now }
    requires order { y.now.low ≤ℤ y.now.high }
    requires small { (unsigned_abs z.now.low < 2 ^ 100) × (unsigned_abs z.now.high < 2 ^ 100) }
    ensures { result ≡ first_sought sought (factor_within a.now x.now y.now z.now) }
{
    if are_unsigned(x, y, z) {
        let factors = factors_of(y, z);
        return factors.holds(sought, a);
    }
    None
}

/// The equations of the ranges of two integers and of their product.
fn by_prod_ranges(
    sought: SoughtEquation,
    a: &OrdInt,
    b: &OrdInt,
    c: &OrdInt,
) -> Option<(Atom, Atom)>
    requires a { IsSound a.now }
    requires b { IsSound b.now }
    requires c { IsSound c.now }
    requires products { HasSmallProducts a.now b.now }
    ensures { result ≡ first_sought sought (prod_ranges a.now b.now c.now) }
{
    let x = Range::of(a);
    let y = Range::of(b);
    let products = products_of(&x, &y);
    let on_product = products.holds(sought, c);
    if on_product.is_some() {
        return on_product;
    }
    let z = Range::of(c);
    let on_first = by_factor(sought, a, &x, &y, &z);
    if on_first.is_some() {
        return on_first;
    }
    by_factor(sought, b, &y, &x, &z)
}

/// The equations of `k` times `b` being `c`, for a `k` above 0.
fn by_multiple(sought: SoughtEquation, k: &i128, b: &OrdInt, c: &OrdInt) -> Option<(Atom, Atom)>
    requires k { pos 1 ≤ℤ k.now }
    requires b { IsSound b.now }
    requires c { IsSound c.now }
    requires multiples { HasSmallMultiples k.now b.now }
    ensures { result ≡ first_sought sought (multiple_equations k.now b.now c.now) }
{
    let times = Link::Times(*k);
    let upwards = linked_back(sought, &times, b, c);
    if upwards.is_some() {
        return upwards;
    }
    let ceiling = Link::Ceiling(*k);
    linked(sought, &ceiling, c, b)
}

/// The equations of `k` times `b` being `c`, for a `k` below 0: down one and up the other.
fn by_negative(sought: SoughtEquation, k: &i128, b: &OrdInt, c: &OrdInt) -> Option<(Atom, Atom)>
    requires k { (k.now <ℤ pos 0) × (unsigned_abs k.now < 2 ^ 100) }
    requires b { IsSound b.now }
    requires c { IsSound c.now }
    requires multiples { HasSmallMultiples k.now b.now }
    ensures { result ≡ first_sought sought (negative_equations k.now b.now c.now) }
{
    let times = Link::Times(*k);
    let upwards = opposed_above(sought, &times, b, c);
    if upwards.is_some() {
        return upwards;
    }
    let over = Link::Over(*k);
    opposed(sought, &over, c, b)
}

/// The equations of the least value of `a` times `b` being `c`.
fn by_scaled(sought: SoughtEquation, a: &OrdInt, b: &OrdInt, c: &OrdInt) -> Option<(Atom, Atom)>
    requires a { IsSound a.now }
    requires b { IsSound b.now }
    requires c { IsSound c.now }
    requires multiples { HasSmallMultiples (low_of a.now) b.now }
    ensures { result ≡ first_sought sought (scaled_equations (low_of a.now) b.now c.now) }
{
    let k = a.low();
    if 0 < k {
        return by_multiple(sought, &k, b, c);
    }
    if k < 0 {
        return by_negative(sought, &k, b, c);
    }
    None
}

/// Those where `a` is constant.
fn scaled_where(sought: SoughtEquation, a: &OrdInt, b: &OrdInt, c: &OrdInt) -> Option<(Atom, Atom)>
    requires a { IsSound a.now }
    requires b { IsSound b.now }
    requires c { IsSound c.now }
    requires multiples { HasSmallMultiples (low_of a.now) b.now }
    ensures { result ≡ first_sought sought
        (only_if (is_constant a.now) (scaled_equations (low_of a.now) b.now c.now)) }
{
    if is_constant(a) {
        return by_scaled(sought, a, b, c);
    }
    None
}

/// Of the equations of `a` times `b` being `c`, the first that is looked for: by their ranges, and then,
/// where a factor is constant, by walks along the two others side by side.
pub(crate) fn by_prod(
    sought: SoughtEquation,
    a: &OrdInt,
    b: &OrdInt,
    c: &OrdInt,
) -> Option<(Atom, Atom)>
    requires a { IsSound a.now }
    requires b { IsSound b.now }
    requires c { IsSound c.now }
    requires products { HasSmallProducts a.now b.now }
    ensures { result ≡ first_sought sought (prod_equations a.now b.now c.now) }
{
    let of_ranges = by_prod_ranges(sought, a, b, c);
    if of_ranges.is_some() {
        return of_ranges;
    }
    let by_first = scaled_where(sought, a, b, c);
    if by_first.is_some() {
        return by_first;
    }
    scaled_where(sought, b, a, c)
}
