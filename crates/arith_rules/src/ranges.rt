//! Ranges of numbers.

ghost use Rattle.std.specs.Prelude.{◌≡◌, ◌^◌, ◌<◌, pos, unsigned_abs};
ghost use Rattle.std.specs.Ordering.{int_eq};
ghost use Rattle.order_ints.specs.OrderRange.{IsBounded};
ghost use Rattle.rule_base.specs.Pairs.{first_sought};
ghost use Rattle.arith_rules.specs.Links.{within};
ghost use Rattle.arith_rules.specs.Ranges.{range_of, sum_of, rest_of, share_of, up_to, IsSmall};

use order_ints::{Atom, OrdInt};
use rule_base::{SoughtEquation, next};

/// The numbers from one to another.
#[derive(Clone, Copy)]
pub struct Range {
    /// The least one.
    pub low: i128,
    /// The greatest one.
    pub high: i128,
}

impl Range {
    /// The least and the greatest value of an integer, by one pass over its steps.
    pub fn of(a: &OrdInt) -> Range
        requires { IsBounded a.now }
        ensures shape { result ≡ range_of a.now }
        ensures small { (unsigned_abs result.low < 2 ^ 100) × (unsigned_abs result.high < 2 ^ 100) }
    {
        Range {
            low: a.low(),
            high: a.high(),
        }
    }

    /// What two values in ranges can add up to.
    pub(crate) fn plus(&self, other: &Range) -> Range
        requires first { (unsigned_abs self.now.low < 2 ^ 100) × (unsigned_abs self.now.high < 2 ^ 100) }
        requires second { (unsigned_abs other.now.low < 2 ^ 100) × (unsigned_abs other.now.high < 2 ^ 100) }
        ensures shape { result ≡ sum_of self.now other.now }
        ensures small { IsSmall result }
    {
        Range {
            low: self.low + other.low,
            high: self.high + other.high,
        }
    }

    /// What a value in another range leaves of one in this.
    pub(crate) fn less(&self, other: &Range) -> Range
        requires first { (unsigned_abs self.now.low < 2 ^ 100) × (unsigned_abs self.now.high < 2 ^ 100) }
        requires second { (unsigned_abs other.now.low < 2 ^ 100) × (unsigned_abs other.now.high < 2 ^ 100) }
        ensures shape { result ≡ rest_of self.now other.now }
        ensures small { IsSmall result }
    {
        Range {
            low: self.low - other.high,
            high: self.high - other.low,
        }
    }

    /// What a member in this range has of `k`, where all members together are in another range.
    pub fn share(&self, all: &Range, k: &i128) -> Range
        requires own { (unsigned_abs self.now.low < 2 ^ 100) × (unsigned_abs self.now.high < 2 ^ 100) }
        requires all { (unsigned_abs all.now.low < 2 ^ 100) × (unsigned_abs all.now.high < 2 ^ 100) }
        requires total { unsigned_abs k.now < 2 ^ 100 }
        ensures shape { result ≡ share_of self.now all.now k.now }
        ensures small { IsSmall result }
    {
        Range {
            low: *k - (all.high - self.high),
            high: *k - (all.low - self.low),
        }
    }

    /// The numbers from 0 to another.
    pub(crate) fn up_to(n: usize) -> Range
        ensures shape { result ≡ up_to n }
        ensures small { IsSmall result }
    {
        Range {
            low: 0,
            high: n as i128,
        }
    }

    /// Whether the least number is `n`.
    pub fn begins_at(&self, n: usize) -> bool
        requires { unsigned_abs self.now.low < 2 ^ 100 }
        ensures { result ≡ int_eq self.now.low (pos n) }
    {
        self.low == n as i128
    }

    /// Whether the greatest number is 0.
    pub fn ends_at_zero(&self) -> bool
        requires { unsigned_abs self.now.high < 2 ^ 100 }
        ensures { result ≡ int_eq self.now.high (pos 0) }
    {
        self.high == 0
    }

    /// That an integer is in the range.
    pub(crate) fn holds(&self, sought: SoughtEquation, a: &OrdInt) -> Option<(Atom, Atom)>
        requires bounded { IsBounded a.now }
        requires small { IsSmall self.now }
        ensures { result ≡ first_sought sought (within a.now self.now.low self.now.high) }
    {
        let from = sought.at_least(a, self.low);
        if from.is_some() {
            return from;
        }
        sought.is_below(a, next(self.high))
    }

    /// That an integer, whose own range is given, is in the range. Where its own range is within this one, no two
    /// different atoms are to be found equal, and it isn't looked at.
    pub(crate) fn binds(
        &self,
        sought: SoughtEquation,
        a: &OrdInt,
        own: &Range,
    ) -> Option<(Atom, Atom)>
        requires bounded { IsBounded a.now }
        requires small { IsSmall self.now }
        requires own { own.now ≡ range_of a.now }
        ensures { result ≡ first_sought sought (within a.now self.now.low self.now.high) }
    {
        if let SoughtEquation::Apart = sought {
            if self.low <= own.low && own.high <= self.high {
                return None;
            }
        }
        self.holds(sought, a)
    }
}
