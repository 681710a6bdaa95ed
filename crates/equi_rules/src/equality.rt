//! The equations that a reified equality of two integers states.

ghost use Rattle.std.specs.Prelude.{◌≡◌, ◌++◌, ◌^◌, ◌<◌, map, unsigned_abs};
ghost use Rattle.order_ints.specs.OrderLevels.{values_of};
ghost use Rattle.core_forms.specs.WellFormed.{IsSound};
ghost use Rattle.order_ints.specs.Same.{is_true};
ghost use Rattle.rule_base.specs.Pairs.{first_sought, only_if};
ghost use Rattle.equi_rules.specs.CompareRows.{equal_at, eq_equations_true, eq_equations_apart, eq_equations_value};
ghost use Rattle.equi_rules.specs.CompareRows.{eq_equations_constant, eq_equations};

use order_ints::{Atom, OrdInt, Walk};
use rule_base::{SoughtEquation, is_constant};

/// The equations at the values of `a`: one loop along them, beside a walk along `b`.
fn at_values_of_first(sought: SoughtEquation, a: &OrdInt, b: &OrdInt) -> Option<(Atom, Atom)>
    requires a { IsSound a.now }
    requires b { IsSound b.now }
    ensures { result ≡ first_sought sought (map (equal_at a.now b.now) (values_of a.now)) }
{
    let mut walk = Walk::along(b);
    for (value, atom) in a.levels() {
        let pair = sought.one(atom, walk.at(value));
        if pair.is_some() {
            return pair;
        }
    }
    None
}

/// The equations at the values of `b`.
fn at_values_of_second(sought: SoughtEquation, a: &OrdInt, b: &OrdInt) -> Option<(Atom, Atom)>
    requires a { IsSound a.now }
    requires b { IsSound b.now }
    ensures { result ≡ first_sought sought (map (equal_at a.now b.now) (values_of b.now)) }
{
    let mut walk = Walk::along(a);
    for (value, atom) in b.levels() {
        let pair = sought.one(walk.at(value), atom);
        if pair.is_some() {
            return pair;
        }
    }
    None
}

/// The equations where `a` and `b` are equal.
fn by_eq_true(sought: SoughtEquation, a: &OrdInt, b: &OrdInt) -> Option<(Atom, Atom)>
    requires a { IsSound a.now }
    requires b { IsSound b.now }
    ensures { result ≡ first_sought sought (eq_equations_true a.now b.now) }
{
    let first = at_values_of_first(sought, a, b);
    if first.is_some() {
        return first;
    }
    at_values_of_second(sought, a, b)
}

/// The equations where the integers' ends alone tell that they differ.
fn by_eq_apart(sought: SoughtEquation, r: Atom, a: &OrdInt, b: &OrdInt) -> Option<(Atom, Atom)>
    requires a { IsSound a.now }
    requires b { IsSound b.now }
    ensures { result ≡ first_sought sought (eq_equations_apart r a.now b.now) }
{
    let apart = a.high() < b.low() || b.high() < a.low();
    sought.when(apart, r, Atom::False)
}

/// The equations where one of the integers is the constant `v`, and `d` is the other.
fn by_eq_value(sought: SoughtEquation, r: Atom, v: i128, d: &OrdInt) -> Option<(Atom, Atom)>
    requires v { unsigned_abs v < 2 ^ 100 }
    requires d { IsSound d.now }
    ensures { result ≡ first_sought sought (eq_equations_value r v d.now) }
{
    let mut walk = Walk::along(d);
    let is_value = walk.has(v);
    let reached = walk.at(v);
    let above = walk.at(v + 1);
    sought
        .when(r.is_false(), reached, above)
        .or(sought.when(!is_value, r, Atom::False))
        .or(sought.when(v == d.low(), r, above.not()))
        .or(sought.when(v == d.high(), r, reached))
}

/// The equations where `a` is constant, and `d` is the other integer.
fn by_eq_constant(sought: SoughtEquation, r: Atom, a: &OrdInt, d: &OrdInt) -> Option<(Atom, Atom)>
    requires a { IsSound a.now }
    requires d { IsSound d.now }
    ensures { result ≡ first_sought sought (eq_equations_constant r a.now d.now) }
{
    if is_constant(a) {
        return by_eq_value(sought, r, a.low(), d);
    }
    None
}

/// The equations where `r` is True.
fn by_eq_known(sought: SoughtEquation, r: Atom, a: &OrdInt, b: &OrdInt) -> Option<(Atom, Atom)>
    requires a { IsSound a.now }
    requires b { IsSound b.now }
    ensures { result ≡ first_sought sought (only_if (is_true r) (eq_equations_true a.now b.now)) }
{
    if r.is_true() {
        return by_eq_true(sought, a, b);
    }
    None
}

/// The equations where `r` is True, or one of the integers is constant.
fn by_eq_terms(sought: SoughtEquation, r: Atom, a: &OrdInt, b: &OrdInt) -> Option<(Atom, Atom)>
    requires a { IsSound a.now }
    requires b { IsSound b.now }
    ensures { result ≡ first_sought sought (only_if (is_true r) (eq_equations_true a.now b.now)
        ++ eq_equations_constant r a.now b.now ++ eq_equations_constant r b.now a.now) }
{
    let known = by_eq_known(sought, r, a, b);
    if known.is_some() {
        return known;
    }
    let first = by_eq_constant(sought, r, a, b);
    if first.is_some() {
        return first;
    }
    by_eq_constant(sought, r, b, a)
}

/// The equations of `r` being the truth of `a` and `b` being equal.
pub(crate) fn by_eq(sought: SoughtEquation, r: Atom, a: &OrdInt, b: &OrdInt) -> Option<(Atom, Atom)>
    requires a { IsSound a.now }
    requires b { IsSound b.now }
    ensures { result ≡ first_sought sought (eq_equations r a.now b.now) }
{
    let by_terms = by_eq_terms(sought, r, a, b);
    if by_terms.is_some() {
        return by_terms;
    }
    let apart = by_eq_apart(sought, r, a, b);
    if apart.is_some() {
        return apart;
    }
    sought.when(a == b, r, Atom::True)
}
