//! One objective.

ghost use Rattle.std.specs.Prelude.{◌≡◌, ◌+◌, length};
ghost use Rattle.order_ints.specs.OrderRange.{IsBounded};
ghost use Rattle.order_ints.specs.OrderValue.{value_of};
ghost use Rattle.order_ints.specs.Truth.{valuation_of};
ghost use Rattle.state_compile.specs.StandsFor.{read_by};
ghost use Rattle.decode_minimize.specs.Objectives.{bound_of, no_worse_of, IsObjective};

use answer_document::{at_least, at_most};
use model_decode::StoreReading;
use order_ints::{Atom, OrdInt};

/// Which value is sought.
#[derive(Clone, Copy)]
pub enum Direction {
    /// The least one.
    Least,
    /// The greatest one.
    Greatest,
}

/// The atom that says that an integer is no better than a number.
pub fn bound_of(direction: Direction, integer: &OrdInt, number: i64) -> Atom
    requires { IsBounded integer.now }
    ensures { result ≡ bound_of direction integer.now number }
{
    match direction {
        Direction::Least => at_least(integer, number),
        Direction::Greatest => at_most(integer, number),
    }
}

/// The atom that says that an integer is no worse than a number.
pub fn no_worse_of(direction: Direction, integer: &OrdInt, number: i64) -> Atom
    requires { IsBounded integer.now }
    ensures { result ≡ no_worse_of direction integer.now number }
{
    match direction {
        Direction::Least => at_most(integer, number),
        Direction::Greatest => at_least(integer, number),
    }
}

/// The value of an integer under truth values that a view reads.
pub fn value_under(integer: &OrdInt, view: &[Atom], values: &[bool]) -> i64
    requires { IsObjective (length view.now + 1) integer.now }
    ensures { result ≡ value_of (read_by view.now (valuation_of values.now)) integer.now }
{
    integer.value(StoreReading { view, values }) as i64
}
