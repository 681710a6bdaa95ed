//! Comparisons, sums, and operations on whole numbers.

ghost use Rattle.std.specs.Prelude.{◌≡◌, ℕ, ◌+ℤ◌, ◌-ℤ◌, ◌*ℤ◌, ◌≤◌, ◌^◌};
ghost use Rattle.std.specs.Prelude.{unsigned_abs, pos, FitsSigned, if◌then◌else◌};
ghost use Rattle.std.specs.Int.{w64};
ghost use Rattle.model_meaning.specs.Terms.{truths_of, numbers_of};
ghost use Rattle.model_meaning.specs.Integers.{relates, total, weight_of_true, linear_sum, is_greatest, is_least};
ghost use Rattle.model_meaning.specs.Integers.{is_quotient, is_remainder, gives, is_aggregate};
ghost use Rattle.model_meaning.specs.Limits.{AllInLimit, TermsInLimit};

use crate::statement::{Aggregate, Arithmetic, Relation};
use crate::terms::{number_of, truth_of};
use crate::what::{BoolTerm, IntTerm};

/// Whether one number stands in a relation to another.
pub fn relates(relation: Relation, left: i128, right: i128) -> bool
    ensures { result ≡ relates relation left right }
{
    match relation {
        Relation::Leq => left <= right,
        Relation::Geq => right <= left,
        Relation::Eq => left == right,
        Relation::Lt => left < right,
        Relation::Gt => right < left,
        Relation::Neq => left != right,
    }
}

/// The sum of a list.
pub fn total(values: &[i64], members: &[IntTerm]) -> i128
    ensures { result ≡ total (numbers_of values.now members.now) }
{
    let mut sum: i128 = 0;
    for member in members {
        sum += i128::from(number_of(values, *member));
    }
    sum
}

/// A coefficient where a member is true, and else 0.
fn coefficient_where(truth: bool, coefficient: i64) -> i64
    ensures value { result ≡ (if truth then coefficient else pos 0) }
    ensures range { FitsSigned w64 result }
{
    if truth { coefficient } else { 0 }
}

/// The sum of the coefficients of the true members.
pub fn weight_of_true(values: &[i64], coefficients: &[i64], members: &[BoolTerm]) -> i128
    ensures { result ≡ weight_of_true coefficients.now (truths_of values.now members.now) }
{
    let mut sum: i128 = 0;
    for i in 0..coefficients.len() {
        if i >= members.len() {
            break;
        }
        sum += i128::from(coefficient_where(truth_of(values, members[i]), coefficients[i]));
    }
    sum
}

/// The product of two numbers.
fn product(left: i64, right: i64) -> i128
    ensures value { result ≡ left *ℤ right }
    ensures range { unsigned_abs result ≤ 2 ^ 126 }
{
    i128::from(left) * i128::from(right)
}

/// The sum of coefficient times member.
pub fn linear_sum(values: &[i64], coefficients: &[i64], members: &[IntTerm]) -> i128
    requires coefficients { AllInLimit coefficients.now }
    requires members { TermsInLimit members.now }
    requires values { AllInLimit values.now }
    ensures { result ≡ linear_sum coefficients.now (numbers_of values.now members.now) }
{
    let mut sum: i128 = 0;
    for i in 0..coefficients.len() {
        if i >= members.len() {
            break;
        }
        sum += product(coefficients[i], number_of(values, members[i]));
    }
    sum
}

/// The sum of two numbers.
fn sum(left: i64, right: i64) -> i128
    ensures { result ≡ left +ℤ right }
{
    i128::from(left) + i128::from(right)
}

/// What a number has beyond a multiple of another.
fn rest(left: i64, right: i64, value: i64) -> i128
    ensures { result ≡ left -ℤ right *ℤ value }
{
    i128::from(left) - product(right, value)
}

/// Whether a number is the quotient of two others, rounded down.
fn is_quotient(left: i64, right: i64, value: i64) -> bool
    ensures { result ≡ is_quotient left right value }
{
    let rest = rest(left, right, value);
    relates(Relation::Leq, 0, rest) && relates(Relation::Lt, rest, i128::from(right))
}

/// Whether a number is the remainder of two others.
fn is_remainder(left: i64, right: i64, value: i64) -> bool
    ensures { result ≡ is_remainder left right value }
{
    0 < right && value == left.rem_euclid(right)
}

/// Whether a number is the greatest member of a list.
fn is_greatest(values: &[i64], members: &[IntTerm], value: i64) -> bool
    ensures { result ≡ is_greatest value (numbers_of values.now members.now) }
{
    let mut reached = false;
    for member in members {
        let number = number_of(values, *member);
        if number > value {
            return false;
        }
        if number == value {
            reached = true;
        }
    }
    reached
}

/// Whether a number is the least member of a list.
fn is_least(values: &[i64], members: &[IntTerm], value: i64) -> bool
    ensures { result ≡ is_least value (numbers_of values.now members.now) }
{
    let mut reached = false;
    for member in members {
        let number = number_of(values, *member);
        if number < value {
            return false;
        }
        if number == value {
            reached = true;
        }
    }
    reached
}

/// Whether a number is what an operation makes of two others.
pub fn gives(operation: Arithmetic, left: i64, right: i64, value: i64) -> bool
    ensures { result ≡ gives operation left right value }
{
    match operation {
        Arithmetic::Plus => { relates(Relation::Eq, i128::from(value), sum(left, right)) }
        Arithmetic::Times => { relates(Relation::Eq, i128::from(value), product(left, right)) }
        Arithmetic::Div => is_quotient(left, right, value),
        Arithmetic::Mod => is_remainder(left, right, value),
        Arithmetic::Max => is_greatest(
            &[],
            &[IntTerm::Number(left), IntTerm::Number(right)],
            value,
        ),
        Arithmetic::Min => is_least(&[], &[IntTerm::Number(left), IntTerm::Number(right)], value),
    }
}

/// Whether a number is the sum, the greatest or the least member of a list.
pub fn is_aggregate(operation: Aggregate, values: &[i64], members: &[IntTerm], value: i64) -> bool
    ensures { result ≡ is_aggregate operation (numbers_of values.now members.now) value }
{
    match operation {
        Aggregate::Plus => relates(Relation::Eq, i128::from(value), total(values, members)),
        Aggregate::Max => is_greatest(values, members, value),
        Aggregate::Min => is_least(values, members, value),
    }
}
