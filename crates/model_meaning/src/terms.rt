//! What terms are worth under an assignment.

ghost use Rattle.std.specs.Prelude.{◌≡◌, FitsSigned};
ghost use Rattle.std.specs.Int.{w64};
ghost use Rattle.model_meaning.specs.Terms.{value_at, truth_of, number_of, as_number};

use crate::what::{BoolTerm, IntTerm};

/// The value of the declaration at a place, which is 0 past the last one.
fn value_at(values: &[i64], place: usize) -> i64
    ensures { result ≡ value_at values.now place }
{
    match values.get(place) {
        Some(value) => *value,
        None => 0,
    }
}

/// Whether a Boolean term is true.
pub fn truth_of(values: &[i64], term: BoolTerm) -> bool
    ensures { result ≡ truth_of values.now term }
{
    match term {
        BoolTerm::Const(truth) => truth,
        BoolTerm::Of { place, positive } => {
            let is_one = value_at(values, place) == 1;
            if positive { is_one } else { !is_one }
        }
    }
}

/// The value of an integer term.
pub fn number_of(values: &[i64], term: IntTerm) -> i64
    ensures value { result ≡ number_of values.now term }
    ensures range { FitsSigned w64 result }
{
    match term {
        IntTerm::Number(number) => number,
        IntTerm::Of(place) => value_at(values, place),
    }
}

/// A truth value as a number.
pub fn as_number(truth: bool) -> i64
    ensures { result ≡ as_number truth }
{
    if truth { 1 } else { 0 }
}
