//! The equations that a reified comparison of two integers states.

ghost use Rattle.std.specs.Prelude.{◌≡◌, [], ◌∷◌, ◌+ℤ◌, pos};
ghost use Rattle.order_ints.specs.Truth.{not_atom};
ghost use Rattle.order_ints.specs.OrderRange.{low_of};
ghost use Rattle.order_ints.specs.OrderLevels.{at_of};
ghost use Rattle.core_forms.specs.WellFormed.{IsSound};
ghost use Rattle.rule_base.specs.Pairs.{first_sought, only_if};
ghost use Rattle.rule_base.specs.Constant.{is_constant};
ghost use Rattle.equi_rules.specs.CompareRows.{leq_equations_true, leq_equations_false, leq_equations_known};
ghost use Rattle.equi_rules.specs.CompareRows.{leq_equations_decided, leq_equations_constant, leq_equations};

use order_ints::{Atom, OrdInt};
use rule_base::{SoughtEquation, is_constant};

/// The equations where `a` is at most `b`.
fn by_leq_true(sought: SoughtEquation, a: &OrdInt, b: &OrdInt) -> Option<(Atom, Atom)>
    requires a { IsSound a.now }
    requires b { IsSound b.now }
    ensures { result ≡ first_sought sought (leq_equations_true a.now b.now) }
{
    let below = sought.is_below(a, b.high() + 1);
    if below.is_some() {
        return below;
    }
    sought.at_least(b, a.low())
}

/// The equations where `a` is above `b`.
fn by_leq_false(sought: SoughtEquation, a: &OrdInt, b: &OrdInt) -> Option<(Atom, Atom)>
    requires a { IsSound a.now }
    requires b { IsSound b.now }
    ensures { result ≡ first_sought sought (leq_equations_false a.now b.now) }
{
    let above = sought.at_least(a, b.low() + 1);
    if above.is_some() {
        return above;
    }
    sought.is_below(b, a.high())
}

/// The equations where the integers' ends alone tell which is greater.
fn by_leq_decided(sought: SoughtEquation, r: Atom, a: &OrdInt, b: &OrdInt) -> Option<(Atom, Atom)>
    requires a { IsSound a.now }
    requires b { IsSound b.now }
    ensures { result ≡ first_sought sought (leq_equations_decided r a.now b.now) }
{
    let always = sought.when(a.high() <= b.low(), r, Atom::True);
    always.or(sought.when(b.high() < a.low(), r, Atom::False))
}

/// The equation where `a` is constant: `r` is that `b` reaches it.
fn at_constant(sought: SoughtEquation, r: Atom, a: &OrdInt, b: &OrdInt) -> Option<(Atom, Atom)>
    requires a { IsSound a.now }
    requires b { IsSound b.now }
    ensures { result ≡ first_sought sought (only_if (is_constant a.now) ((r, at_of b.now (low_of a.now)) ∷ [])) }
{
    if is_constant(a) {
        return sought.one(r, b.at(a.low()));
    }
    None
}

/// The equation where `b` is constant: `r` is that `a` isn't above it.
fn not_above_constant(
    sought: SoughtEquation,
    r: Atom,
    a: &OrdInt,
    b: &OrdInt,
) -> Option<(Atom, Atom)>
    requires a { IsSound a.now }
    requires b { IsSound b.now }
    ensures { result ≡ first_sought sought
        (only_if (is_constant b.now) ((r, not_atom (at_of a.now (low_of b.now +ℤ pos 1))) ∷ [])) }
{
    if is_constant(b) {
        return sought.one(r, a.at(b.low() + 1).not());
    }
    None
}

/// The equations where one of the integers is constant.
fn by_leq_constant(sought: SoughtEquation, r: Atom, a: &OrdInt, b: &OrdInt) -> Option<(Atom, Atom)>
    requires a { IsSound a.now }
    requires b { IsSound b.now }
    ensures { result ≡ first_sought sought (leq_equations_constant r a.now b.now) }
{
    let first = at_constant(sought, r, a, b);
    if first.is_some() {
        return first;
    }
    not_above_constant(sought, r, a, b)
}

/// The equations where `r` is a constant.
fn by_leq_known(sought: SoughtEquation, r: Atom, a: &OrdInt, b: &OrdInt) -> Option<(Atom, Atom)>
    requires a { IsSound a.now }
    requires b { IsSound b.now }
    ensures { result ≡ first_sought sought (leq_equations_known r a.now b.now) }
{
    match r {
        Atom::True => by_leq_true(sought, a, b),
        Atom::False => by_leq_false(sought, a, b),
        Atom::Of(_) => None,
    }
}

/// The equations of `r` being the truth of `a` being at most `b`.
pub(crate) fn by_leq(
    sought: SoughtEquation,
    r: Atom,
    a: &OrdInt,
    b: &OrdInt,
) -> Option<(Atom, Atom)>
    requires a { IsSound a.now }
    requires b { IsSound b.now }
    ensures { result ≡ first_sought sought (leq_equations r a.now b.now) }
{
    let known = by_leq_known(sought, r, a, b);
    if known.is_some() {
        return known;
    }
    let decided = by_leq_decided(sought, r, a, b);
    if decided.is_some() {
        return decided;
    }
    by_leq_constant(sought, r, a, b)
}
