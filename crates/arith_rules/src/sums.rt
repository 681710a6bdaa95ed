//! The equations that sums and counts state.

ghost use Rattle.std.specs.Prelude.{◌≡◌, ◌+◌, ◌^◌, ◌<◌, ◌+ℤ◌, ◌≤ℤ◌, true, pos, unsigned_abs, length, IsTrue};
ghost use Rattle.std.specs.Option.{is_some};
ghost use Rattle.order_ints.specs.OrderRange.{IsBounded};
ghost use Rattle.core_forms.specs.Totals.{before_last};
ghost use Rattle.core_forms.specs.WellFormed.{AreSound, abs_total};
ghost use Rattle.rule_base.specs.declared.sought.SoughtEquation.TheVariants.{Apart};
ghost use Rattle.rule_base.specs.Pairs.{first_sought, only_if};
ghost use Rattle.rule_base.specs.Stated.{all_equal};
ghost use Rattle.arith_rules.specs.SumRows.{sum3_ranges, count_equations, sum_equations};
ghost use Rattle.arith_rules.specs.SumRows.{lows_of, highs_of, last_share, HaveAllValues};
ghost use Rattle.arith_rules.specs.Ranges.{ranges_of};

use crate::ranges::Range;
use core_forms::{Summands, Totals};
use order_ints::{Atom, OrdInt};
use rule_base::SoughtEquation;

/// The equations of the ranges of two integers and of their sum.
pub(crate) fn by_sum3_ranges(
    sought: SoughtEquation,
    a: &OrdInt,
    b: &OrdInt,
    c: &OrdInt,
) -> Option<(Atom, Atom)>
    requires a { IsBounded a.now }
    requires b { IsBounded b.now }
    requires c { IsBounded c.now }
    ensures { result ≡ first_sought sought (sum3_ranges a.now b.now c.now) }
{
    let x = Range::of(a);
    let y = Range::of(b);
    let total = x.plus(&y);
    let on_sum = total.holds(sought, c);
    if on_sum.is_some() {
        return on_sum;
    }
    let z = Range::of(c);
    let first_rest = z.less(&y);
    let on_first = first_rest.holds(sought, a);
    if on_first.is_some() {
        return on_first;
    }
    let second_rest = z.less(&x);
    second_rest.holds(sought, b)
}

/// That each atom is equal to one, where a test holds.
fn each_where(sought: SoughtEquation, test: bool, atoms: &[Atom], b: Atom) -> Option<(Atom, Atom)>
    ensures { result ≡ first_sought sought (only_if test (all_equal atoms.now b)) }
{
    if test {
        return sought.each(atoms, b);
    }
    None
}

/// Of the equations of an integer being the number of true members, the first that is looked for: one pass
/// over the members, and one over the steps.
pub(crate) fn by_count(sought: SoughtEquation, atoms: &[Atom], c: &OrdInt) -> Option<(Atom, Atom)>
    requires { IsBounded c.now }
    ensures { result ≡ first_sought sought (count_equations atoms.now c.now) }
{
    let n = atoms.len();
    let numbers = Range::up_to(n);
    let on_range = numbers.holds(sought, c);
    if on_range.is_some() {
        return on_range;
    }
    let z = Range::of(c);
    let all = z.begins_at(n);
    let on_all = each_where(sought, all, atoms, Atom::True);
    if on_all.is_some() {
        return on_all;
    }
    let none = z.ends_at_zero();
    each_where(sought, none, atoms, Atom::False)
}

/// The least values of integers, added up, and the greatest ones.
fn totals(ints: &[OrdInt]) -> Range
    requires sound { AreSound ints.now }
    requires limit { abs_total ints.now < 2 ^ 100 }
    ensures shape { result ≡ ranges_of ints.now }
    ensures small { (unsigned_abs result.low < 2 ^ 100) × (unsigned_abs result.high < 2 ^ 100) }
{
    let mut low: i128 = 0;
    let mut high: i128 = 0;
    for a in ints {
        low += a.low();
        high += a.high();
    }
    Range { low, high }
}

/// Of the equations of each member being what the others leave of `k`, the first that is looked for: one pass, for each
/// member's share of what all add up to, which binds a member only where its own range is wider.
fn by_shares(sought: SoughtEquation, ints: &[OrdInt], all: &Range, k: &i128) -> Option<(Atom, Atom)>
    requires sound { AreSound ints.now }
    requires shape { all.now ≡ ranges_of ints.now }
    requires all { (unsigned_abs all.now.low < 2 ^ 100) × (unsigned_abs all.now.high < 2 ^ 100) }
    requires total { unsigned_abs k.now < 2 ^ 100 }
    ensures { result ≡ first_sought sought (sum_equations ints.now k.now) }
{
    if ints.is_empty() {
        return sought.when(*k != 0, Atom::True, Atom::False);
    }
    for a in ints {
        let own = Range::of(a);
        let share = own.share(all, k);
        let pair = share.binds(sought, a, &own);
        if pair.is_some() {
            return pair;
        }
    }
    None
}

/// What the members add up to, as `totals` tells it of their list: in constant time where it is known.
pub fn totals_of(ints: &Summands) -> Range
    requires sound { AreSound ints.now }
    requires limit { abs_total ints.now < 2 ^ 100 }
    ensures shape { result ≡ ranges_of ints.now }
    ensures small { (unsigned_abs result.low < 2 ^ 100) × (unsigned_abs result.high < 2 ^ 100) }
{
    match ints.totals() {
        Some(known) => Range {
            low: known.low,
            high: known.low + known.width as i128,
        },
        None => totals(ints.as_slice()),
    }
}

/// Whether a number is so far above another one, or farther.
fn is_above(low: &i128, width: u128, high: &i128) -> bool
    requires low { unsigned_abs low.now < 2 ^ 100 }
    requires high { unsigned_abs high.now < 2 ^ 100 }
    ensures { IsTrue result → (low.now +ℤ pos width) ≤ℤ high.now }
{
    *low <= *high && width <= (*high - *low) as u128
}

/// Whether `k` is so far from both ends of a range, or farther.
fn is_far(all: &Range, width: u128, k: &i128) -> bool
    requires all { (unsigned_abs all.now.low < 2 ^ 100) × (unsigned_abs all.now.high < 2 ^ 100) }
    requires total { unsigned_abs k.now < 2 ^ 100 }
    ensures low { IsTrue result → (all.now.low +ℤ pos width) ≤ℤ k.now }
    ensures high { IsTrue result → (k.now +ℤ pos width) ≤ℤ all.now.high }
{
    is_above(&all.low, width, k) && is_above(k, width, &all.high)
}

/// Whether it is known that of a sum of `k` the others leave each member but the last one all its values. It takes
/// constant time.
pub fn binds_last_alone(ints: &Summands, all: &Range, k: &i128) -> bool
    requires shape { all.now ≡ ranges_of ints.now }
    requires all { (unsigned_abs all.now.low < 2 ^ 100) × (unsigned_abs all.now.high < 2 ^ 100) }
    requires total { unsigned_abs k.now < 2 ^ 100 }
    ensures { IsTrue result → HaveAllValues k.now (lows_of ints.now) (highs_of ints.now) (before_last ints.now) }
{
    match ints.totals() {
        Some(known) => is_far(all, known.widest, k),
        None => false,
    }
}

/// Of the equations of the last member being what the others leave of `k`, the first that is looked for.
fn by_last(sought: SoughtEquation, ints: &[OrdInt], all: &Range, k: &i128) -> Option<(Atom, Atom)>
    requires sound { AreSound ints.now }
    requires shape { all.now ≡ ranges_of ints.now }
    requires all { (unsigned_abs all.now.low < 2 ^ 100) × (unsigned_abs all.now.high < 2 ^ 100) }
    requires total { unsigned_abs k.now < 2 ^ 100 }
    ensures { result ≡ first_sought sought (last_share k.now (lows_of ints.now) (highs_of ints.now) ints.now) }
{
    match ints.split_last() {
        Some((last, _)) => {
            let own = Range::of(last);
            let share = own.share(all, k);
            share.binds(sought, last, &own)
        }
        None => None,
    }
}

/// Of the equations of the members of a sum, the first that is looked for. The first one of two different atoms is
/// found in the time of the last member where that alone is bound.
pub(crate) fn by_summands(sought: SoughtEquation, ints: &Summands, k: &i128) -> Option<(Atom, Atom)>
    requires sound { AreSound ints.now }
    requires limit { abs_total ints.now + unsigned_abs k.now < 2 ^ 100 }
    ensures { result ≡ first_sought sought (sum_equations ints.now k.now) }
{
    let members = ints.as_slice();
    let all = totals_of(ints);
    if let SoughtEquation::Apart = sought {
        if !members.is_empty() && binds_last_alone(ints, &all, k) {
            return by_last(SoughtEquation::Apart, members, &all, k);
        }
    }
    by_shares(sought, members, &all, k)
}

/// Whether what the others leave the last member of a sum states an equation.
pub(crate) fn last_states(sought: SoughtEquation, ints: &Summands, k: &i128) -> bool
    requires sound { AreSound ints.now }
    requires limit { abs_total ints.now + unsigned_abs k.now < 2 ^ 100 }
    ensures { IsTrue result → is_some (first_sought sought (sum_equations ints.now k.now)) ≡ true }
{
    let all = totals_of(ints);
    let pair = by_last(sought, ints.as_slice(), &all, k);
    pair.is_some()
}
