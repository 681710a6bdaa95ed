//! The equations that a division states.

ghost use Rattle.std.specs.Prelude.{◌≡◌, ◌&&◌, ◌^◌, ◌<◌, pos, ◌+ℤ◌, ◌*ℤ◌, ◌≤ℤ◌};
ghost use Rattle.std.specs.Prelude.{int_le, unsigned_abs};
ghost use Rattle.order_ints.specs.OrderRange.{IsBounded, low_of};
ghost use Rattle.core_forms.specs.WellFormed.{HasSmallDivisions};
ghost use Rattle.rule_base.specs.Pairs.{first_sought};
ghost use Rattle.arith_rules.specs.Ranges.{IsSmall};
ghost use Rattle.arith_rules.specs.ProductRows.{div_mod_equations};
ghost use Rattle.arith_rules.specs.DivisionRanges.{quotients_of, rest_within, quotient_within, dividends_of};
ghost use Rattle.arith_rules.specs.DivisionRanges.{HaveSmallDividends, dividend_within};

use crate::numbers::{floor_of, product};
use crate::ranges::Range;
use order_ints::{Atom, OrdInt};
use rule_base::{SoughtEquation, next};

/// What a quotient is at least and at most, where the dividend is in the first range and the divisor in the
/// second.
fn quotients_of(x: &Range, y: &Range) -> Range
    requires divisor { (pos 1 ≤ℤ y.now.low) × (pos 1 ≤ℤ y.now.high) }
    requires small { (unsigned_abs x.now.low < 2 ^ 100) × (unsigned_abs x.now.high < 2 ^ 100) }
    ensures shape { result ≡ quotients_of x.now y.now }
    ensures small { IsSmall result }
{
    Range {
        low: floor_of(&x.low, &y.high),
        high: floor_of(&x.high, &y.low),
    }
}

/// The equations of the range of a rest.
fn by_rest(sought: SoughtEquation, r: &OrdInt, x: &Range, y: &Range) -> Option<(Atom, Atom)>
    requires bounded { IsBounded r.now }
    requires dividend { unsigned_abs x.now.high < 2 ^ 100 }
    ensures { result ≡ first_sought sought (rest_within r.now x.now y.now) }
{
    let from = sought.at_least(r, 0);
    if from.is_some() {
        return from;
    }
    let below = sought.is_below(r, y.high);
    if below.is_some() {
        return below;
    }
    sought.is_below(r, next(x.high))
}

/// The equations of the ranges of a quotient and a rest.
fn by_quotient(
    sought: SoughtEquation,
    q: &OrdInt,
    r: &OrdInt,
    x: &Range,
    y: &Range,
) -> Option<(Atom, Atom)>
    requires q { IsBounded q.now }
    requires r { IsBounded r.now }
    requires divisor { (pos 1 ≤ℤ y.now.low) × (pos 1 ≤ℤ y.now.high) }
    requires small { (unsigned_abs x.now.low < 2 ^ 100) × (unsigned_abs x.now.high < 2 ^ 100) }
    ensures { result ≡ first_sought sought (quotient_within q.now r.now x.now y.now) }
{
    let quotients = quotients_of(x, y);
    let on_quotient = quotients.holds(sought, q);
    if on_quotient.is_some() {
        return on_quotient;
    }
    by_rest(sought, r, x, y)
}

/// A number times another, plus a third.
fn product_plus(x: &i128, y: &i128, z: &i128) -> i128
    requires whole { unsigned_abs (x.now *ℤ y.now +ℤ z.now) < 2 ^ 100 }
    requires rest { unsigned_abs z.now < 2 ^ 100 }
    ensures { result ≡ x.now *ℤ y.now +ℤ z.now }
{
    product(x, y) + *z
}

/// What a quotient times a divisor, plus a rest, is at least and at most.
fn dividends_of(z: &Range, y: &Range, t: &Range) -> Range
    requires whole { HaveSmallDividends z.now y.now t.now }
    requires rest { (unsigned_abs t.now.low < 2 ^ 100) × (unsigned_abs t.now.high < 2 ^ 100) }
    ensures shape { result ≡ dividends_of z.now y.now t.now }
    ensures small { IsSmall result }
{
    Range {
        low: product_plus(&z.low, &y.low, &t.low),
        high: product_plus(&z.high, &y.high, &t.high),
    }
}

/// Whether a quotient and a rest have values from 0.
fn are_from_zero(z: &Range, t: &Range) -> bool
    ensures { result ≡ (int_le (pos 0) z.now.low && int_le (pos 0) t.now.low) }
{
    0 <= z.low && 0 <= t.low
}

/// The equations of the range of a dividend, where the quotient and the rest have values from 0.
fn by_dividend(
    sought: SoughtEquation,
    a: &OrdInt,
    z: &Range,
    y: &Range,
    t: &Range,
) -> Option<(Atom, Atom)>
    requires bounded { IsBounded a.now }
    requires whole { HaveSmallDividends z.now y.now t.now }
    requires rest { (unsigned_abs t.now.low < 2 ^ 100) × (unsigned_abs t.now.high < 2 ^ 100) }
    ensures { result ≡ first_sought sought (dividend_within a.now z.now y.now t.now) }
{
    if are_from_zero(z, t) {
        let dividends = dividends_of(z, y, t);
        return dividends.holds(sought, a);
    }
    None
}

/// Of the equations of `a` by `b` being `q` with the rest `r`, the first that is looked for: by the ranges of
/// the four, each found by one pass.
pub(crate) fn by_div_mod(
    sought: SoughtEquation,
    a: &OrdInt,
    b: &OrdInt,
    q: &OrdInt,
    r: &OrdInt,
) -> Option<(Atom, Atom)>
    requires a { IsBounded a.now }
    requires b { IsBounded b.now }
    requires q { IsBounded q.now }
    requires r { IsBounded r.now }
    requires divisor { pos 1 ≤ℤ low_of b.now }
    requires divisions { HasSmallDivisions b.now q.now r.now }
    ensures { result ≡ first_sought sought (div_mod_equations a.now b.now q.now r.now) }
{
    let x = Range::of(a);
    let y = Range::of(b);
    let on_quotient = by_quotient(sought, q, r, &x, &y);
    if on_quotient.is_some() {
        return on_quotient;
    }
    let z = Range::of(q);
    let t = Range::of(r);
    by_dividend(sought, a, &z, &y, &t)
}
