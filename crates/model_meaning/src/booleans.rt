//! What operators make of a list of truth values.

ghost use Rattle.std.specs.Prelude.{◌≡◌, ◌≤◌, ◌||◌, length};
ghost use Rattle.model_meaning.specs.Terms.{truths_of};
ghost use Rattle.model_meaning.specs.Booleans.{some_true, all_true, none_true, count_true, combine};

use crate::statement::Operator;
use crate::terms::truth_of;
use crate::what::BoolTerm;

/// Whether a member is true.
fn some_true(values: &[i64], members: &[BoolTerm]) -> bool
    ensures { result ≡ some_true (truths_of values.now members.now) }
{
    for member in members {
        if truth_of(values, *member) {
            return true;
        }
    }
    false
}

/// Whether all members are true.
fn all_true(values: &[i64], members: &[BoolTerm]) -> bool
    ensures { result ≡ all_true (truths_of values.now members.now) }
{
    for member in members {
        if !truth_of(values, *member) {
            return false;
        }
    }
    true
}

/// The number of true members.
pub fn count_true(values: &[i64], members: &[BoolTerm]) -> usize
    ensures count { result ≡ count_true (truths_of values.now members.now) }
    ensures most { result ≤ length members.now }
{
    let mut count = 0;
    for member in members {
        if truth_of(values, *member) {
            count += 1;
        }
    }
    count
}

/// Whether all members are equal.
fn all_equal(values: &[i64], members: &[BoolTerm]) -> bool
    ensures { result ≡ (all_true (truths_of values.now members.now) || none_true (truths_of values.now members.now)) }
{
    let count = count_true(values, members);
    count == 0 || count == members.len()
}

/// What an operator makes of a list.
pub fn combine(operator: Operator, values: &[i64], members: &[BoolTerm]) -> bool
    ensures { result ≡ combine operator (truths_of values.now members.now) }
{
    match operator {
        Operator::Or => some_true(values, members),
        Operator::And => all_true(values, members),
        Operator::Xor => count_true(values, members) % 2 == 1,
        Operator::Iff => all_equal(values, members),
    }
}
