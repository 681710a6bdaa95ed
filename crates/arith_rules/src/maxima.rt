//! The equations that a greatest member states.

ghost use Rattle.std.specs.Prelude.{◌≡◌, ◌^◌, ◌<◌, [], ◌∷◌, pos, ◌+ℤ◌, int_lt, unsigned_abs};
ghost use Rattle.order_ints.specs.OrderRange.{IsBounded, high_of};
ghost use Rattle.core_forms.specs.WellFormed.{IsSound, AreSound};
ghost use Rattle.rule_base.specs.Pairs.{first_sought};
ghost use Rattle.rule_base.specs.Stated.{is_below};
ghost use Rattle.arith_rules.specs.Links.{alike_where, alike_back};
ghost use Rattle.arith_rules.specs.MaxRows.{member_ranges, top_equations, max_equations};
ghost use Rattle.arith_rules.specs.Tops.{no_tops, with_top, tops_of, AreSmall, false_above, leader_above};
ghost use Rattle.arith_rules.specs.Tops.{leaders_above};

use crate::links::turned;
use order_ints::{Atom, OrdInt, Walk};
use rule_base::{SoughtEquation, next};

/// Below each value of an integer.
const BELOW_ALL: i128 = -(1 << 100);

/// The two greatest of the members' greatest values. A value above the second is reached by one member at
/// most, and one above the first by none.
#[derive(Clone, Copy)]
pub struct Tops {
    /// The greatest.
    pub first: i128,
    /// The greatest of all but that one.
    pub second: i128,
}

impl Tops {
    /// Those of no members: below each value.
    fn none() -> Tops
        ensures shape { result ≡ no_tops }
        ensures small { AreSmall result }
    {
        Tops {
            first: BELOW_ALL,
            second: BELOW_ALL,
        }
    }

    /// With one member more.
    fn with(&self, a: &OrdInt) -> Tops
        requires bounded { IsBounded a.now }
        requires small { AreSmall self.now }
        ensures shape { result ≡ with_top self.now (high_of a.now) }
        ensures small { AreSmall result }
    {
        let high = a.high();
        if high <= self.second {
            return *self;
        }
        if high <= self.first {
            return Tops {
                first: self.first,
                second: high,
            };
        }
        Tops {
            first: high,
            second: self.first,
        }
    }

    /// Those of members, by one pass over their steps.
    pub fn of(ints: &[OrdInt]) -> Tops
        requires { AreSound ints.now }
        ensures shape { result ≡ tops_of ints.now }
        ensures small { AreSmall result }
    {
        let mut tops = Tops::none();
        for a in ints {
            tops = tops.with(a);
        }
        tops
    }
}

/// That an integer is at most a number.
fn is_at_most(sought: SoughtEquation, a: &OrdInt, most: &i128) -> Option<(Atom, Atom)>
    requires bounded { IsBounded a.now }
    requires small { unsigned_abs most.now < 2 ^ 110 }
    ensures { result ≡ first_sought sought (is_below a.now (most.now +ℤ pos 1) ∷ []) }
{
    sought.is_below(a, next(*most))
}

/// The equations of the members' ends and those of `c`: one loop along the members, beside a walk along `c`.
fn on_ranges(sought: SoughtEquation, ints: &[OrdInt], c: &OrdInt) -> Option<(Atom, Atom)>
    requires ints { AreSound ints.now }
    requires c { IsSound c.now }
    ensures { result ≡ first_sought sought (member_ranges c.now ints.now) }
{
    let high = c.high();
    let mut walk = Walk::along(c);
    for a in ints {
        let low = a.low();
        let from = walk.at(low);
        let pair = sought
            .one(from, Atom::True)
            .or(is_at_most(sought, a, &high));
        if pair.is_some() {
            return pair;
        }
    }
    None
}

/// That `c` is not above the greatest values of all members.
fn on_top(sought: SoughtEquation, tops: &Tops, ints: &[OrdInt], c: &OrdInt) -> Option<(Atom, Atom)>
    requires ints { AreSound ints.now }
    requires c { IsBounded c.now }
    requires tops { tops.now ≡ tops_of ints.now }
    requires small { AreSmall tops.now }
    ensures { result ≡ first_sought sought (top_equations c.now ints.now) }
{
    if ints.is_empty() {
        return None;
    }
    is_at_most(sought, c, &tops.first)
}

/// That `c` is below each of its values above a number.
fn on_unreached(sought: SoughtEquation, least: &i128, c: &OrdInt) -> Option<(Atom, Atom)>
    requires { IsSound c.now }
    ensures { result ≡ first_sought sought (false_above least.now c.now) }
{
    for (value, atom) in c.levels() {
        let pair = sought.when(*least < value, atom, Atom::False);
        if pair.is_some() {
            return pair;
        }
    }
    None
}

/// That `a` reaches each of its values above a number exactly where `b` does: one loop along the values of
/// `a`, beside a walk along `b`.
fn alike_above(sought: SoughtEquation, least: &i128, a: &OrdInt, b: &OrdInt) -> Option<(Atom, Atom)>
    requires a { IsSound a.now }
    requires b { IsSound b.now }
    ensures { result ≡ first_sought sought (alike_where (int_lt least.now) a.now b.now) }
{
    let mut walk = Walk::along(b);
    for (value, atom) in a.levels() {
        let other = walk.at(value);
        let pair = sought.when(*least < value, atom, other);
        if pair.is_some() {
            return pair;
        }
    }
    None
}

/// That `b` reaches each value of `a` above a number exactly where `a` does.
fn alike_back(sought: SoughtEquation, least: &i128, a: &OrdInt, b: &OrdInt) -> Option<(Atom, Atom)>
    requires a { IsSound a.now }
    requires b { IsSound b.now }
    ensures { result ≡ first_sought sought (alike_back (int_lt least.now) a.now b.now) }
{
    let found = alike_above(sought, least, a, b);
    turned(found)
}

/// That `c` and a member are linked at the values above a number, where the member reaches some.
fn on_leader(sought: SoughtEquation, least: &i128, c: &OrdInt, a: &OrdInt) -> Option<(Atom, Atom)>
    requires c { IsSound c.now }
    requires a { IsSound a.now }
    ensures { result ≡ first_sought sought (leader_above least.now c.now a.now) }
{
    if *least < a.high() {
        let upwards = alike_above(sought, least, c, a);
        if upwards.is_some() {
            return upwards;
        }
        return alike_back(sought, least, a, c);
    }
    None
}

/// That `c` is linked with each member that reaches values above a number.
fn on_leaders(
    sought: SoughtEquation,
    least: &i128,
    c: &OrdInt,
    ints: &[OrdInt],
) -> Option<(Atom, Atom)>
    requires c { IsSound c.now }
    requires ints { AreSound ints.now }
    ensures { result ≡ first_sought sought (leaders_above least.now c.now ints.now) }
{
    for a in ints {
        let pair = on_leader(sought, least, c, a);
        if pair.is_some() {
            return pair;
        }
    }
    None
}

/// Of the equations of `c` being the greatest member, the first that is looked for: by the ends of all, and
/// at the values that one member at most reaches by walks along `c` and that member side by side.
pub(crate) fn by_max(sought: SoughtEquation, ints: &[OrdInt], c: &OrdInt) -> Option<(Atom, Atom)>
    requires ints { AreSound ints.now }
    requires c { IsSound c.now }
    ensures { result ≡ first_sought sought (max_equations ints.now c.now) }
{
    let of_ranges = on_ranges(sought, ints, c);
    if of_ranges.is_some() {
        return of_ranges;
    }
    let tops = Tops::of(ints);
    let of_top = on_top(sought, &tops, ints, c);
    if of_top.is_some() {
        return of_top;
    }
    let of_unreached = on_unreached(sought, &tops.first, c);
    if of_unreached.is_some() {
        return of_unreached;
    }
    on_leaders(sought, &tops.second, c, ints)
}
