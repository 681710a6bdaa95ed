//! The atoms of bounds: how good an objective is.

ghost use Rattle.std.specs.Prelude.{◌≡◌, ℕ, pos};
ghost use Rattle.order_ints.specs.OrderLevels.{at_of};
ghost use Rattle.order_ints.specs.OrderMade.{constant_of};
ghost use Rattle.order_ints.specs.OrderRange.{IsBounded};
ghost use Rattle.answer_document.specs.BoundAtoms.{integer_named, at_least, at_most, first_bound, second_least};
ghost use Rattle.answer_document.specs.BoundAtoms.{second_most, second_bound, fixed};

use model_meaning::Goal;
use order_ints::{Atom, MapValue, OrdInt};

/// What a name stands for, as an integer; `zero` for one that stands for none.
pub fn integer_named<'a>(entries: &'a [MapValue], place: usize, zero: &'a OrdInt) -> &'a OrdInt
    requires { zero.now ≡ constant_of (pos 0) }
    ensures { result.now ≡ integer_named entries.now place }
{
    match entries.get(place) {
        Some(MapValue::Int(integer)) => integer,
        _ => zero,
    }
}

/// The atom that says that an integer is at least a number.
pub fn at_least(integer: &OrdInt, number: i64) -> Atom
    requires { IsBounded integer.now }
    ensures { result ≡ at_least integer.now number }
{
    integer.at(i128::from(number))
}

/// The atom that says that an integer is at most a number.
pub fn at_most(integer: &OrdInt, number: i64) -> Atom
    requires { IsBounded integer.now }
    ensures { result ≡ at_most integer.now number }
{
    integer.at(i128::from(number) + 1).not()
}

/// The atom that is true where what a name stands for is at least a number. A name that stands for no integer is 0.
fn at_named(entries: &[MapValue], place: usize, number: i128) -> Atom
    requires { IsBounded (integer_named entries.now place) }
    ensures { result ≡ at_of (integer_named entries.now place) number }
{
    match entries.get(place) {
        Some(MapValue::Int(integer)) => integer.at(number),
        _ => { if number <= 0 { Atom::True } else { Atom::False } }
    }
}

/// The atom that is true where what a name stands for is at least a number.
fn named_at_least(entries: &[MapValue], place: usize, number: i64) -> Atom
    requires { IsBounded (integer_named entries.now place) }
    ensures { result ≡ at_least (integer_named entries.now place) number }
{
    at_named(entries, place, i128::from(number))
}

/// The atom that is true where what a name stands for is at most a number.
fn named_at_most(entries: &[MapValue], place: usize, number: i64) -> Atom
    requires { IsBounded (integer_named entries.now place) }
    ensures { result ≡ at_most (integer_named entries.now place) number }
{
    at_named(entries, place, i128::from(number) + 1).not()
}

/// The bound of the first objective at a number: it is no better. It walks along the values of the objective's integer
/// up to the number, and takes no memory.
pub fn first_bound(goal: Goal, entries: &[MapValue], number: i64) -> Atom
    requires { (place : ℕ) → IsBounded (integer_named entries.now place) }
    ensures { result ≡ first_bound goal entries.now number }
{
    match goal {
        Goal::Satisfy => Atom::False,
        Goal::Minimize(place, _) => named_at_least(entries, place, number),
        Goal::Maximize(place, _) => named_at_most(entries, place, number),
    }
}

/// The bound of a second objective of which the least is sought.
fn second_least(entries: &[MapValue], second: Option<usize>, number: i64) -> Atom
    requires { (place : ℕ) → IsBounded (integer_named entries.now place) }
    ensures { result ≡ second_least entries.now second number }
{
    match second {
        None => Atom::False,
        Some(place) => named_at_least(entries, place, number),
    }
}

/// The bound of a second objective of which the greatest is sought.
fn second_most(entries: &[MapValue], second: Option<usize>, number: i64) -> Atom
    requires { (place : ℕ) → IsBounded (integer_named entries.now place) }
    ensures { result ≡ second_most entries.now second number }
{
    match second {
        None => Atom::False,
        Some(place) => named_at_most(entries, place, number),
    }
}

/// The bound of the second objective at a number.
pub fn second_bound(goal: Goal, entries: &[MapValue], number: i64) -> Atom
    requires { (place : ℕ) → IsBounded (integer_named entries.now place) }
    ensures { result ≡ second_bound goal entries.now number }
{
    match goal {
        Goal::Satisfy => Atom::False,
        Goal::Minimize(_, second) => second_least(entries, second, number),
        Goal::Maximize(_, second) => second_most(entries, second, number),
    }
}

/// The atom that is true where the first objective is no worse than a number.
pub fn fixed(goal: Goal, entries: &[MapValue], number: i64) -> Atom
    requires { (place : ℕ) → IsBounded (integer_named entries.now place) }
    ensures { result ≡ fixed goal entries.now number }
{
    match goal {
        Goal::Satisfy => Atom::True,
        Goal::Minimize(place, _) => named_at_most(entries, place, number),
        Goal::Maximize(place, _) => named_at_least(entries, place, number),
    }
}
