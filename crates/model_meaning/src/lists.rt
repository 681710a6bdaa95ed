//! Lists whose members differ, and lists that are in order.

ghost use Rattle.std.specs.Prelude.{◌≡◌, ◌&&◌, map};
ghost use Rattle.std.specs.Ordering.{int_eq};
ghost use Rattle.model_meaning.specs.Terms.{truth_of, number_of, truths_of, numbers_of, as_number};
ghost use Rattle.model_meaning.specs.Lists.{differs_from, all_differ, differs_where, differ_where, in_order};

use crate::terms::{as_number, number_of, truth_of};
use crate::what::{BoolTerm, IntTerm};

/// Whether no member of a list has a value.
fn differs_from(values: &[i64], number: i64, members: &[IntTerm]) -> bool
    ensures { result ≡ differs_from number (numbers_of values.now members.now) }
{
    for member in members {
        if number == number_of(values, *member) {
            return false;
        }
    }
    true
}

/// Whether members at different places differ. It compares each two members, and takes no memory.
pub fn all_differ(values: &[i64], members: &[IntTerm]) -> bool
    ensures { result ≡ all_differ (numbers_of values.now members.now) }
{
    let mut rest = members;
    while let [first, others @ ..] = rest {
        if !differs_from(values, number_of(values, *first), others) {
            return false;
        }
        rest = others;
    }
    true
}

/// Whether a member has a value and its condition is true.
fn is_taken(values: &[i64], number: i64, member: IntTerm, condition: BoolTerm) -> bool
    ensures { result ≡ (truth_of values.now condition && int_eq number (number_of values.now member)) }
{
    truth_of(values, condition) && number == number_of(values, member)
}

/// Whether no member whose condition is true has a value.
fn differs_where(values: &[i64], number: i64, members: &[IntTerm], conditions: &[BoolTerm]) -> bool
    ensures { result ≡ differs_where number (numbers_of values.now members.now)
        (truths_of values.now conditions.now) }
{
    for i in 0..members.len() {
        if i >= conditions.len() {
            return true;
        }
        if is_taken(values, number, members[i], conditions[i]) {
            return false;
        }
    }
    true
}

/// Whether members at two places whose conditions are both true differ. It compares each two members,
/// and takes no memory.
pub fn differ_where(values: &[i64], members: &[IntTerm], conditions: &[BoolTerm]) -> bool
    ensures { result ≡ differ_where (numbers_of values.now members.now) (truths_of values.now conditions.now) }
{
    let mut rest = members;
    let mut tests = conditions;
    while let [first, others @ ..] = rest {
        let [test, other_tests @ ..] = tests else {
            return true;
        };
        if truth_of(values, *test)
            && !differs_where(values, number_of(values, *first), others, other_tests)
        {
            return false;
        }
        rest = others;
        tests = other_tests;
    }
    true
}

/// Whether two lists of integers are in order.
pub fn numbers_in_order(strict: bool, values: &[i64], left: &[IntTerm], right: &[IntTerm]) -> bool
    ensures { result ≡ in_order strict (numbers_of values.now left.now) (numbers_of values.now right.now) }
{
    for i in 0..left.len() {
        if i >= right.len() {
            return false;
        }
        let one = number_of(values, left[i]);
        let other = number_of(values, right[i]);
        if one < other {
            return true;
        }
        if other < one {
            return false;
        }
    }
    left.len() == right.len() && !strict
}

/// Whether two lists of Booleans are in order, false before true.
pub fn truths_in_order(strict: bool, values: &[i64], left: &[BoolTerm], right: &[BoolTerm]) -> bool
    ensures { result ≡ in_order strict (map as_number (truths_of values.now left.now))
        (map as_number (truths_of values.now right.now)) }
{
    for i in 0..left.len() {
        if i >= right.len() {
            return false;
        }
        let one = as_number(truth_of(values, left[i]));
        let other = as_number(truth_of(values, right[i]));
        if one < other {
            return true;
        }
        if other < one {
            return false;
        }
    }
    left.len() == right.len() && !strict
}
