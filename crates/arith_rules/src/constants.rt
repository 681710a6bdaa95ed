//! The equations that a sum of two integers states where one of the three is constant.

ghost use Rattle.std.specs.Prelude.{◌≡◌};
ghost use Rattle.core_forms.specs.WellFormed.{IsSound};
ghost use Rattle.order_ints.specs.OrderRange.{low_of};
ghost use Rattle.rule_base.specs.Pairs.{first_sought, only_if};
ghost use Rattle.rule_base.specs.Constant.{is_constant};
ghost use Rattle.arith_rules.specs.SumRows.{raised_equations, mirrored_equations, sum3_constants, sum3_equations};

use crate::links::{Link, linked, linked_back, opposed, opposed_above};
use crate::sums::by_sum3_ranges;
use order_ints::{Atom, OrdInt};
use rule_base::{SoughtEquation, is_constant};

/// The equations of the least value of `a` and `b`, added up, being `c`.
fn by_raised(sought: SoughtEquation, a: &OrdInt, b: &OrdInt, c: &OrdInt) -> Option<(Atom, Atom)>
    requires a { IsSound a.now }
    requires b { IsSound b.now }
    requires c { IsSound c.now }
    ensures { result ≡ first_sought sought (raised_equations (low_of a.now) b.now c.now) }
{
    let k = a.low();
    let plus = Link::Plus(k);
    let upwards = linked(sought, &plus, b, c);
    if upwards.is_some() {
        return upwards;
    }
    let minus = Link::Minus(k);
    linked_back(sought, &minus, c, b)
}

/// The equations of `a` and `b`, added up, being the least value of `c`: down one and up the other.
fn by_mirrored(sought: SoughtEquation, c: &OrdInt, a: &OrdInt, b: &OrdInt) -> Option<(Atom, Atom)>
    requires c { IsSound c.now }
    requires a { IsSound a.now }
    requires b { IsSound b.now }
    ensures { result ≡ first_sought sought (mirrored_equations (low_of c.now) a.now b.now) }
{
    let k = c.low();
    let above = Link::Above(k);
    let first = opposed(sought, &above, a, b);
    if first.is_some() {
        return first;
    }
    let from = Link::From(k);
    opposed_above(sought, &from, b, a)
}

/// Those where `a` is constant.
fn raised_where(sought: SoughtEquation, a: &OrdInt, b: &OrdInt, c: &OrdInt) -> Option<(Atom, Atom)>
    requires a { IsSound a.now }
    requires b { IsSound b.now }
    requires c { IsSound c.now }
    ensures { result ≡ first_sought sought
        (only_if (is_constant a.now) (raised_equations (low_of a.now) b.now c.now)) }
{
    if is_constant(a) {
        return by_raised(sought, a, b, c);
    }
    None
}

/// Those where `c` is constant.
fn mirrored_where(
    sought: SoughtEquation,
    c: &OrdInt,
    a: &OrdInt,
    b: &OrdInt,
) -> Option<(Atom, Atom)>
    requires c { IsSound c.now }
    requires a { IsSound a.now }
    requires b { IsSound b.now }
    ensures { result ≡ first_sought sought
        (only_if (is_constant c.now) (mirrored_equations (low_of c.now) a.now b.now)) }
{
    if is_constant(c) {
        return by_mirrored(sought, c, a, b);
    }
    None
}

/// The equations where one of the three is constant.
pub(crate) fn by_sum3_constants(
    sought: SoughtEquation,
    a: &OrdInt,
    b: &OrdInt,
    c: &OrdInt,
) -> Option<(Atom, Atom)>
    requires a { IsSound a.now }
    requires b { IsSound b.now }
    requires c { IsSound c.now }
    ensures { result ≡ first_sought sought (sum3_constants a.now b.now c.now) }
{
    let first = raised_where(sought, a, b, c);
    if first.is_some() {
        return first;
    }
    let second = raised_where(sought, b, a, c);
    if second.is_some() {
        return second;
    }
    mirrored_where(sought, c, a, b)
}

/// Of the equations of `a` and `b`, added up, being `c`, the first that is looked for: by their ranges, and then,
/// where one is constant, by walks along the two others side by side.
pub(crate) fn by_sum3(
    sought: SoughtEquation,
    a: &OrdInt,
    b: &OrdInt,
    c: &OrdInt,
) -> Option<(Atom, Atom)>
    requires a { IsSound a.now }
    requires b { IsSound b.now }
    requires c { IsSound c.now }
    ensures { result ≡ first_sought sought (sum3_equations a.now b.now c.now) }
{
    let of_ranges = by_sum3_ranges(sought, a, b, c);
    if of_ranges.is_some() {
        return of_ranges;
    }
    by_sum3_constants(sought, a, b, c)
}
