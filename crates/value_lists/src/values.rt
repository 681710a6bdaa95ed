//! A list of values, as a domain has it.

ghost use Rattle.std.specs.Prelude.{◌≡◌, ◌-◌, ◌^◌, ◌<◌, IfOk, length};
ghost use Rattle.std.specs.List.{list_any};
ghost use Rattle.std.specs.Ordering.{int_eq};
ghost use Rattle.value_lists.specs.ValueLists.{Ascends, different, first_of, last_of, divisor_of, shape_of};

use bee_list::{Apart, Sequence};
use core_cost::{Shape, common_divisor};
use std::alloc::{AllocError, Global};
use std::marker::Model;

/// The values, and what is worked out of them once.
#[derive(Debug, Drop)]
struct Listed {
    values: Sequence<i64>,
    divisor: u128,
}

/// Different values in ascending order, which stand apart from what holds them. A clause sees them as their list. The
/// greatest common divisor of their gaps is kept beside them, since it is asked for wherever the values are those of an
/// integer.
#[derive(Debug, Drop)]
pub struct Values {
    listed: Apart<Listed>,
}

impl Model for Values {
    ghost use Rattle.std.specs.Prelude.{◌≡◌, List, ℤ};
    ghost use Rattle.value_lists.specs.ValueLists.{Ascends, divisor_of};

    ghost Value = { List ℤ };

    ghost view = { λ v. v.listed.values };

    ghost invariant = { λ v. Ascends v.listed.values × (v.listed.divisor ≡ divisor_of v.listed.values) };
}

/// The greatest common divisor of the gaps between neighbours.
fn gaps_divisor(values: &[i64]) -> u128
    ensures { result ≡ divisor_of values.now }
{
    let mut divisor: u128 = 0;
    for i in (1..values.len()).rev() {
        let gap = values[i].abs_diff(values[i - 1]);
        divisor = common_divisor(u128::from(gap), divisor);
    }
    divisor
}

/// How many values there are but the first.
fn further(values: &[i64]) -> u128
    ensures { result ≡ length values.now - 1 }
{
    values.len().saturating_sub(1) as u128
}

/// The different values of a list, ascending. It takes the time of one sort.
fn sorted(values: Vec<i64>) -> Vec<i64>
    ensures { result.items ≡ different values.items }
{
    let mut values = values;
    values.sort_unstable();
    values.dedup();
    values
}

impl Values {
    /// The different values of a list, in any order.
    pub fn from_vec(alloc: Global, values: Vec<i64>) -> Result<Values, AllocError>
        ensures { IfOk result (λ v. v ≡ different values.items) }
    {
        let values = sorted(values);
        let divisor = gaps_divisor(values.as_slice());
        let listed = Listed {
            values: Sequence::from_vec(values),
            divisor,
        };
        Ok(Values {
            listed: Apart::new(alloc, listed)?,
        })
    }

    /// The values.
    pub fn as_slice(&self) -> &[i64]
        ensures value { result.now ≡ self.now }
        ensures ascending { Ascends result.now }
    {
        self.listed.get().values.as_slice()
    }

    /// The greatest common divisor of the gaps between neighbours, which is 0 where there is no gap.
    pub fn divisor(&self) -> u128
        ensures { result ≡ divisor_of self.now }
    {
        self.listed.get().divisor
    }

    /// The shape of an integer that has these values, with a step for each but the least.
    pub fn shape(&self) -> Shape
        ensures shape { result ≡ shape_of self.now }
        ensures span { result.span < 2 ^ 64 }
        ensures divisor { result.divisor < 2 ^ 64 }
    {
        Shape {
            steps: further(self.as_slice()),
            span: u128::from(self.greatest().abs_diff(self.least())),
            divisor: self.divisor(),
        }
    }

    /// Whether a value is listed. It looks at few of them, by halving.
    pub fn contains(&self, value: i64) -> bool
        ensures { result ≡ list_any (λ v. int_eq v value) self.now }
    {
        self.as_slice().binary_search(&value).is_ok()
    }

    /// The least value, and 0 where there is none.
    pub fn least(&self) -> i64
        ensures { result ≡ first_of self.now }
    {
        match self.as_slice().first() {
            Some(value) => *value,
            None => 0,
        }
    }

    /// The greatest value, and 0 where there is none.
    pub fn greatest(&self) -> i64
        ensures { result ≡ last_of self.now }
    {
        match self.as_slice().last() {
            Some(value) => *value,
            None => 0,
        }
    }
}
