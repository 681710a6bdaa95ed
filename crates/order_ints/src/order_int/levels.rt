//! The walk along the values of an integer, and the atom at which it reaches a value.

ghost use Rattle.std.specs.Prelude.{◌≡◌, ◌^◌, ◌<◌, ◌≤ℤ◌, ◌↔◌, ℤ, IsTrue, unsigned_abs};
ghost use Rattle.std.specs.List.{AllByRecursion};
ghost use Rattle.std.specs.Iterator.{YieldsFirst, item_count};
ghost use Rattle.order_ints.specs.Truth.{Valuation, atom_truth};
ghost use Rattle.order_ints.specs.OrderValue.{value_of, IsOrdered};
ghost use Rattle.order_ints.specs.OrderRange.{low_of, high_of, IsBounded};
ghost use Rattle.order_ints.specs.OrderLevels.{levels_of, at_of};

use super::OrdInt;
use super::signed::raised;
use crate::atom::Atom;
use std::marker::Model;

/// What is left of a walk along the values of an integer, each with the atom that is true where it is
/// reached. A contract sees it as the list of these pairs.
#[derive(Drop)]
pub struct Levels<'a> {
    next: Option<(i128, Atom)>,
    steps: &'a [(Atom, u128)],
}

impl<'a> Model for Levels<'a> {
    ghost use Rattle.std.specs.Prelude.{ℤ, List};
    ghost use Rattle.order_ints.specs.declared.atom.Atom.{Atom};
    ghost use Rattle.order_ints.specs.LevelsLeft.{levels_left, WithinLimits};

    ghost Value = { List (ℤ × Atom) };

    ghost view = { λ walk. levels_left walk.next walk.steps.now };

    ghost invariant = { λ walk. WithinLimits walk.next walk.steps.now };
}

impl<'a> Iterator for Levels<'a> {
    type Item = (i128, Atom);

    ghost next_gives = { YieldsFirst (λ walk. walk) };

    ghost remaining = { item_count (λ walk. walk) };

    fn next(&mut self) -> Option<(i128, Atom)> {
        let (value, atom) = self.next?;
        self.next = match self.steps.split_first() {
            Some((step, rest)) => {
                self.steps = rest;
                Some((raised(value, step.1), step.0))
            }
            None => None,
        };
        Some((value, atom))
    }
}

impl OrdInt {
    /// The values upwards, each with the atom that is true where the integer has at least that value;
    /// the first one is the base with the atom that is always true. Each item takes constant time.
    pub fn levels(&self) -> Levels<'_>
        requires { IsBounded self.now }
        ensures shape { result ≡ levels_of self.now }
        ensures range { AllByRecursion (λ level. unsigned_abs level.0 < 2 ^ 100) result }
    {
        Levels {
            next: Some((self.base, Atom::True)),
            steps: self.steps.as_slice(),
        }
    }

    /// The atom that is true exactly where the integer, being ordered, is at least `v`: it goes along
    /// the values up to `v`. A loop over many values takes `levels` instead.
    pub fn at(&self, v: i128) -> Atom
        requires { IsBounded self.now }
        ensures shape { result ≡ at_of self.now v }
        ensures meaning { (σ : Valuation) → IsOrdered σ self.now
            → (IsTrue (atom_truth σ result) ↔ (v ≤ℤ value_of σ self.now)) }
    {
        for (value, atom) in self.levels() {
            if v <= value {
                return atom;
            }
        }
        Atom::False
    }

    /// The least value.
    pub fn low(&self) -> i128
        requires { IsBounded self.now }
        ensures value { result ≡ low_of self.now }
        ensures range { unsigned_abs result < 2 ^ 100 }
    {
        self.base
    }

    /// The greatest value, by one pass over the steps.
    pub fn high(&self) -> i128
        requires { IsBounded self.now }
        ensures value { result ≡ high_of self.now }
        ensures range { unsigned_abs result < 2 ^ 100 }
    {
        let mut weights: u128 = 0;
        for step in self.steps.as_slice() {
            weights += step.1;
        }
        raised(self.base, weights)
    }
}
