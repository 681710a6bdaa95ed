//! The objective, under truth values and as an atom.

ghost use Rattle.std.specs.Prelude.{◌≡◌, ℕ, IfOk};
ghost use Rattle.order_ints.specs.OrderRange.{IsBounded};
ghost use Rattle.order_ints.specs.OrderValue.{value_of};
ghost use Rattle.order_ints.specs.Truth.{valuation_of};
ghost use Rattle.answer_document.specs.BoundAtoms.{integer_named};
ghost use Rattle.objective_bound.specs.Bounds.{value_at, better_than};

use answer_document::{first_bound, integer_named};
use model_meaning::Goal;
use order_ints::{Atom, MapValue, OrdInt};
use std::alloc::{AllocError, Global};

/// The value of an integer under truth values, where it has 64 bits.
fn value_under(integer: &OrdInt, values: &[bool]) -> Result<i64, AllocError>
    requires { IsBounded integer.now }
    ensures { IfOk result (λ n. n ≡ value_of (valuation_of values.now) integer.now) }
{
    match i64::try_from(integer.value(values)) {
        Ok(number) => Ok(number),
        Err(_) => Err(AllocError),
    }
}

/// The value of the objective under truth values, 0 where there is none. One pass over the steps of its integer. Want
/// of memory is told, too, where the value hasn't 64 bits.
pub fn value_at(
    alloc: Global,
    goal: Goal,
    entries: &[MapValue],
    values: &[bool],
) -> Result<i64, AllocError>
    requires { (place : ℕ) → IsBounded (integer_named entries.now place) }
    ensures { IfOk result (λ n. n ≡ value_at goal entries.now values.now) }
{
    let zero = OrdInt::constant(alloc, 0)?;
    match goal {
        Goal::Satisfy => Ok(0),
        Goal::Minimize(place, _) => value_under(integer_named(entries, place, &zero), values),
        Goal::Maximize(place, _) => value_under(integer_named(entries, place, &zero), values),
    }
}

/// The atom that says that the objective of a goal is better than a number; True where none is sought.
pub fn better_than(goal: Goal, entries: &[MapValue], number: i64) -> Atom
    requires { (place : ℕ) → IsBounded (integer_named entries.now place) }
    ensures { result ≡ better_than goal entries.now number }
{
    first_bound(goal, entries, number).not()
}
