//! The levels of an integer as a list, in which a value is searched.

ghost use Rattle.std.specs.Prelude.{◌≡◌, ◌+◌, ◌^◌, ◌<◌, ◌≤◌, pos, ◌+ℤ◌, unsigned_abs};
ghost use Rattle.std.specs.Prelude.{IfOk};
ghost use Rattle.order_ints.specs.OrderRange.{low_of};
ghost use Rattle.order_ints.specs.OrderLevels.{levels_of, at_of};
ghost use Rattle.order_ints.specs.Walk.{value_at};
ghost use Rattle.core_forms.specs.WellFormed.{IsSound};
ghost use Rattle.core_forms.specs.Shapes.{steps_of};
ghost use Rattle.std.proofs.Props.{props};
ghost use Rattle.direct_encode.specs.Search.{IsReachedAt, rising_prop};

use order_ints::{Atom, OrdInt};
use std::alloc::{AllocError, Global};

/// The levels of an integer, added up once: each value with the atom that is true where the integer is
/// at least that value.
#[derive(Drop)]
pub(crate) struct Table<'a> {
    int: &'a OrdInt,
    levels: Vec<(i128, Atom)>,
    ghost lists: { levels.items ≡ levels_of int.now },
    ghost sound: { IsSound int.now } by { Prim.hlevel (rising_prop, props) },
}

impl<'a> Table<'a> {
    /// The table of an integer: one pass over its steps.
    pub(crate) fn of(alloc: Global, int: &'a OrdInt) -> Result<Table<'a>, AllocError>
        requires { IsSound int.now }
        ensures { IfOk result (λ table. table.int.now ≡ int.now) }
    {
        let levels = listed_levels(alloc, int)?;
        Ok(Table { int, levels })
    }

    /// The number of values.
    pub(crate) fn len(&self) -> usize
        ensures { result ≡ steps_of self.now.int.now + 1 }
    {
        self.levels.len()
    }

    /// The least value.
    pub(crate) fn low(&self) -> i128
        ensures { result ≡ low_of self.now.int.now }
    {
        self.int.base
    }

    /// The last place.
    pub(crate) fn last(&self) -> usize
        ensures { result ≡ steps_of self.now.int.now }
    {
        self.int.steps.as_slice().len()
    }

    /// The value at a place.
    pub(crate) fn value(&self, place: usize) -> i128
        requires { place ≤ steps_of self.now.int.now }
        ensures value { result ≡ value_at self.now.int.now place }
        ensures range { unsigned_abs result < 2 ^ 100 }
    {
        self.levels[place].0
    }

    /// The atom that is true where the integer is at least its value at a place.
    pub(crate) fn reached(&self, place: usize) -> Atom
        requires { place ≤ steps_of self.now.int.now }
        ensures { result ≡ at_of self.now.int.now (value_at self.now.int.now place) }
    {
        self.levels[place].1
    }

    /// The atom that is true where the integer is above its value at a place.
    pub(crate) fn exceeded(&self, place: usize) -> Atom
        requires { place ≤ steps_of self.now.int.now }
        ensures { result ≡ at_of self.now.int.now (value_at self.now.int.now place +ℤ pos 1) }
    {
        let count = self.levels.len();
        let next = place + 1;
        if next < count {
            return self.levels[next].1;
        }
        Atom::False
    }

    /// The atom that is true exactly where the integer, being ordered, is at least `v`: a binary search.
    pub(crate) fn at(&self, v: i128) -> Atom
        ensures { result ≡ at_of self.now.int.now v }
    {
        let place = first_reaching(self.levels.as_slice(), v);
        let count = self.levels.len();
        if place < count {
            return self.levels[place].1;
        }
        Atom::False
    }
}

/// The levels of an integer, one after another.
fn listed_levels(alloc: Global, int: &OrdInt) -> Result<Vec<(i128, Atom)>, AllocError>
    requires { IsSound int.now }
    ensures { IfOk result (λ levels. levels.items ≡ levels_of int.now) }
{
    let mut levels = Vec::with_capacity(alloc, int.steps.as_slice().len() + 1)?;
    for level in int.levels() {
        levels.push(level)?;
    }
    Ok(levels)
}

/// The place of a level at which `v` is reached while the one before it, if there is one, is below `v`;
/// behind the last level where that is below `v`. Where values rise this is the first that reaches `v`.
fn first_reaching(levels: &[(i128, Atom)], v: i128) -> usize
    ensures { IsReachedAt levels.now v result }
{
    let mut low = 0;
    let mut high = levels.len();
    while low < high {
        let middle = low + (high - low) / 2;
        if levels[middle].0 < v {
            low = middle + 1;
        } else {
            high = middle;
        }
    }
    low
}
