//! A walk along the levels of an integer, up and down, beside other values.

ghost use Rattle.std.specs.Prelude.{◌≡◌, ℕ, ◌+◌, ◌-◌, ◌≤◌, ◌<◌, ◌^◌, length};
ghost use Rattle.std.specs.Prelude.{◌≤ℤ◌, ◌<ℤ◌, unsigned_abs};
ghost use Rattle.order_ints.specs.OrderRange.{IsBounded};
ghost use Rattle.order_ints.specs.OrderLevels.{at_of};
ghost use Rattle.order_ints.specs.Walk.{value_at, atom_at, has_value, StandsAt};

use super::OrdInt;
use super::signed::{lowered, raised};
use crate::atom::Atom;

/// A place among the levels of an integer. It tells for any value the atom that is true where the integer
/// is at least that value, and goes there, up or down, in time linear in the levels that it passes. So for
/// values that go one way it takes together time linear in them and in the integer's steps. A copy keeps
/// the place, to go on from it once more. It takes no memory.
#[derive(Clone, Copy)]
pub struct Walk<'a> {
    int: &'a OrdInt,
    place: usize,
    value: i128,
    ghost stands: { StandsAt int.now place value },
}

impl<'a> Walk<'a> {
    /// The walk that begins at the least value.
    pub fn along(int: &'a OrdInt) -> Walk<'a>
        requires { IsBounded int.now }
        ensures { result.int.now ≡ int.now }
    {
        Walk {
            int,
            place: 0,
            value: int.base,
        }
    }

    /// The value of the next higher level.
    fn upper(&self) -> i128
        requires { self.now.place < length self.now.int.now.steps }
        ensures value { result ≡ value_at self.now.int.now (self.now.place + 1) }
        ensures range { unsigned_abs result < 2 ^ 100 }
    {
        raised(self.value, self.int.steps.as_slice()[self.place].1)
    }

    /// The value of the next lower level.
    fn lower(&self) -> i128
        requires { 0 < self.now.place }
        ensures value { result ≡ value_at self.now.int.now (self.now.place - 1) }
        ensures range { unsigned_abs result < 2 ^ 100 }
    {
        lowered(self.value, self.int.steps.as_slice()[self.place - 1].1)
    }

    /// The atom of the level.
    fn atom(&self) -> Atom
        ensures { result ≡ atom_at self.now.int.now self.now.place }
    {
        if self.place == 0 {
            return Atom::True;
        }
        self.int.steps.as_slice()[self.place - 1].0
    }

    /// Goes up until `v` is reached, or to the greatest value.
    fn go_up(&mut self, v: i128)
        ensures same { self.new.int.now ≡ self.old.int.now }
        ensures reached { self.new.value <ℤ v → self.new.place ≡ length self.new.int.now.steps }
    {
        while self.place < self.int.steps.len() && self.value < v {
            self.value = self.upper();
            self.place += 1;
        }
    }

    /// Goes down as far as `v` is still reached.
    fn go_down(&mut self, v: i128)
        ensures same { self.new.int.now ≡ self.old.int.now }
        ensures reached { (self.old.value <ℤ v → self.old.place ≡ length self.old.int.now.steps)
            → self.new.value <ℤ v → self.new.place ≡ length self.new.int.now.steps }
        ensures first { 0 < self.new.place → value_at self.new.int.now (self.new.place - 1) <ℤ v }
    {
        while self.place > 0 {
            let lower = self.lower();
            if lower < v {
                return;
            }
            self.value = lower;
            self.place -= 1;
        }
    }

    /// The atom that is true exactly where the integer, being ordered, is at least `v`. The walk goes there.
    pub fn at(&mut self, v: i128) -> Atom
        ensures atom { result ≡ at_of self.old.int.now v }
        ensures same { self.new.int.now ≡ self.old.int.now }
    {
        self.go_up(v);
        self.go_down(v);
        if self.value < v {
            return Atom::False;
        }
        self.atom()
    }

    /// Whether the integer has the value `v`. The walk goes there.
    pub fn has(&mut self, v: i128) -> bool
        ensures value { result ≡ has_value self.old.int.now v }
        ensures same { self.new.int.now ≡ self.old.int.now }
    {
        self.go_up(v);
        self.go_down(v);
        self.value == v
    }
}
