//! The equations that link the values of one integer with those of another.

ghost use Rattle.std.specs.Prelude.{◌≡◌, ◌^◌, ◌<◌, option_map, unsigned_abs};
ghost use Rattle.core_forms.specs.WellFormed.{IsSound};
ghost use Rattle.rule_base.specs.Pairs.{first_sought};
ghost use Rattle.arith_rules.specs.Links.{linked, linked_back, opposed, opposed_above, turned};
ghost use Rattle.arith_rules.specs.CodeLinks.{link_of, LinkFits, LinkFitsAll};

use crate::numbers::{ceiling_of, over_floor_of, product};
use order_ints::{Atom, OrdInt, Walk};
use rule_base::{SoughtEquation, next};

/// Which value of another integer a value is linked with.
#[derive(Clone, Copy)]
pub enum Link {
    /// The value and a number, added up.
    Plus(i128),
    /// The value less a number.
    Minus(i128),
    /// A number less the value.
    From(i128),
    /// 1 more than a number less the value.
    Above(i128),
    /// A number times the value.
    Times(i128),
    /// The value by a number from 1, rounded up.
    Ceiling(i128),
    /// 1 more than the value by a number below 0, rounded down.
    Over(i128),
}

impl Link {
    /// What a value is linked with.
    pub fn of(&self, v: i128) -> i128
        requires value { unsigned_abs v < 2 ^ 100 }
        requires fits { LinkFits self.now v }
        ensures { result ≡ link_of self.now v }
    {
        match self {
            Link::Plus(k) => v + *k,
            Link::Minus(k) => v - *k,
            Link::From(k) => *k - v,
            Link::Above(k) => *k - v + 1,
            Link::Times(k) => product(k, &v),
            Link::Ceiling(k) => ceiling_of(&v, k),
            Link::Over(k) => over_floor_of(&v, k),
        }
    }
}

/// That `a` reaches each of its values exactly where `b` reaches what it is linked with: one loop along
/// the values of `a`, beside a walk along `b`.
pub(crate) fn linked(
    sought: SoughtEquation,
    link: &Link,
    a: &OrdInt,
    b: &OrdInt,
) -> Option<(Atom, Atom)>
    requires a { IsSound a.now }
    requires b { IsSound b.now }
    requires fits { LinkFitsAll link.now a.now }
    ensures { result ≡ first_sought sought (linked (link_of link.now) a.now b.now) }
{
    let mut walk = Walk::along(b);
    for (value, atom) in a.levels() {
        let target = link.of(value);
        let other = walk.at(target);
        let pair = sought.one(atom, other);
        if pair.is_some() {
            return pair;
        }
    }
    None
}

/// An equation that was found, with its two atoms exchanged.
pub(crate) fn turned(found: Option<(Atom, Atom)>) -> Option<(Atom, Atom)>
    ensures { result ≡ option_map turned found }
{
    match found {
        Some((a, b)) => Some((b, a)),
        None => None,
    }
}

/// That `b` reaches what each value of `a` is linked with exactly where `a` reaches that value.
pub(crate) fn linked_back(
    sought: SoughtEquation,
    link: &Link,
    a: &OrdInt,
    b: &OrdInt,
) -> Option<(Atom, Atom)>
    requires a { IsSound a.now }
    requires b { IsSound b.now }
    requires fits { LinkFitsAll link.now a.now }
    ensures { result ≡ first_sought sought (linked_back (link_of link.now) a.now b.now) }
{
    let found = linked(sought, link, a, b);
    turned(found)
}

/// That `a` reaches each of its values exactly where `b` is below what it is linked with.
pub(crate) fn opposed(
    sought: SoughtEquation,
    link: &Link,
    a: &OrdInt,
    b: &OrdInt,
) -> Option<(Atom, Atom)>
    requires a { IsSound a.now }
    requires b { IsSound b.now }
    requires fits { LinkFitsAll link.now a.now }
    ensures { result ≡ first_sought sought (opposed (link_of link.now) a.now b.now) }
{
    let mut walk = Walk::along(b);
    for (value, atom) in a.levels() {
        let target = link.of(value);
        let other = walk.at(target);
        let pair = sought.one(atom, other.not());
        if pair.is_some() {
            return pair;
        }
    }
    None
}

/// That `a` is at most each of its values exactly where `b` reaches what it is linked with.
pub(crate) fn opposed_above(
    sought: SoughtEquation,
    link: &Link,
    a: &OrdInt,
    b: &OrdInt,
) -> Option<(Atom, Atom)>
    requires a { IsSound a.now }
    requires b { IsSound b.now }
    requires fits { LinkFitsAll link.now a.now }
    ensures { result ≡ first_sought sought (opposed_above (link_of link.now) a.now b.now) }
{
    let mut above = Walk::along(a);
    let mut walk = Walk::along(b);
    for (value, _) in a.levels() {
        let target = link.of(value);
        let other = walk.at(target);
        let upper = above.at(next(value));
        let pair = sought.one(other, upper.not());
        if pair.is_some() {
            return pair;
        }
    }
    None
}
