//! Whether statements hold under an assignment.

ghost use Rattle.std.specs.Prelude.{◌≡◌, pos, unsigned_abs};
ghost use Rattle.std.specs.Ordering.{int_eq};
ghost use Rattle.model_meaning.specs.Terms.{truth_of, number_of, truths_of, numbers_of, as_number};
ghost use Rattle.model_meaning.specs.Integers.{relates};
ghost use Rattle.model_meaning.specs.Holds.{holds, same, truth_or_true, members_differ, lists_in_order};
ghost use Rattle.model_meaning.specs.Limits.{AllInLimit, WhatInLimit};

use crate::booleans::{combine, count_true};
use crate::integers::{gives, is_aggregate, linear_sum, relates, total, weight_of_true};
use crate::lists::{all_differ, differ_where, numbers_in_order, truths_in_order};
use crate::parts::{OrderLists, terms_or_none};
use crate::statement::{AllDifferent, Order, Relation};
use crate::terms::{as_number, number_of, truth_of};
use crate::what::{BoolTerm, IntTerm, What};
use bee_list::Apart;

/// Whether two truth values are equal.
fn same(left: bool, right: bool) -> bool
    ensures { result ≡ same left right }
{
    if left { right } else { !right }
}

/// Whether a number stands in a relation to the value of a term.
fn relates_to(relation: Relation, number: i128, values: &[i64], bound: IntTerm) -> bool
    ensures { result ≡ relates relation number (number_of values.now bound) }
{
    relates(relation, number, i128::from(number_of(values, bound)))
}

/// Whether the values of two terms stand in a relation.
fn compares(relation: Relation, values: &[i64], left: IntTerm, right: IntTerm) -> bool
    ensures { result ≡ relates relation (number_of values.now left) (number_of values.now right) }
{
    relates_to(relation, i128::from(number_of(values, left)), values, right)
}

/// Whether the value of a term is the absolute value of another's.
fn is_absolute(values: &[i64], operand: IntTerm, value: IntTerm) -> bool
    ensures { result ≡ int_eq (number_of values.now value) (pos (unsigned_abs (number_of values.now operand))) }
{
    i128::from(number_of(values, value)) == i128::from(number_of(values, operand).unsigned_abs())
}

/// The truth value of a term that may be left out; one that is left out is true.
fn truth_or_true(values: &[i64], truth: &Option<Apart<BoolTerm>>) -> bool
    ensures { result ≡ truth_or_true values.now truth.now }
{
    match truth {
        Some(term) => truth_of(values, *term.get()),
        None => true,
    }
}

/// Which members differ.
fn members_differ(
    kind: AllDifferent,
    values: &[i64],
    members: &[IntTerm],
    truth: bool,
    conditions: &[BoolTerm],
) -> bool
    ensures { result ≡ members_differ kind (numbers_of values.now members.now) truth
        (truths_of values.now conditions.now) }
{
    match kind {
        AllDifferent::Plain => all_differ(values, members),
        AllDifferent::Reified => same(truth, all_differ(values, members)),
        AllDifferent::Conditional => differ_where(values, members, conditions),
    }
}

/// Whether the lists of an order are in it.
fn lists_in_order(order: Order, values: &[i64], lists: &OrderLists<'_>, truth: bool) -> bool
    ensures { result ≡ lists_in_order order (truths_of values.now lists.now.left_truths.now)
        (truths_of values.now lists.now.right_truths.now) (numbers_of values.now lists.now.left_numbers.now)
        (numbers_of values.now lists.now.right_numbers.now) truth }
{
    let in_order = if order.of_booleans {
        truths_in_order(order.strict, values, lists.left_truths, lists.right_truths)
    } else {
        numbers_in_order(
            order.strict,
            values,
            lists.left_numbers,
            lists.right_numbers,
        )
    };
    if order.reified {
        same(truth, in_order)
    } else {
        in_order
    }
}

/// Whether a statement holds.
#[tactic(auto, unfolding(crate::specs::Holds::holds))]
pub fn what_holds(values: &[i64], what: &What) -> bool
    requires what { WhatInLimit what.now }
    requires values { AllInLimit values.now }
    ensures { result ≡ holds values.now what.now }
{
    match what {
        What::BoolToInt { truth, number } => {
            number_of(values, *number) == as_number(truth_of(values, *truth))
        }
        What::BoolEq { left, right } => same(truth_of(values, *left), truth_of(values, *right)),
        What::BoolOp {
            operator,
            left,
            right,
            truth,
            ..
        } => same(
            truth_of(values, *truth),
            combine(*operator, values, &[*left, *right]),
        ),
        What::BoolArray {
            operator,
            members,
            ..
        } => combine(*operator, values, members.as_slice()),
        What::BoolArrayReified {
            operator,
            members,
            truth,
            ..
        } => same(
            truth_of(values, *truth),
            combine(*operator, values, members.as_slice()),
        ),
        What::Compare {
            relation,
            left,
            right,
            ..
        } => compares(*relation, values, *left, *right),
        What::CompareReified {
            relation,
            left,
            right,
            truth,
            ..
        } => same(
            truth_of(values, *truth),
            compares(*relation, values, *left, *right),
        ),
        What::BoolSum {
            relation,
            members,
            bound,
            ..
        } => {
            let count = count_true(values, members.as_slice()) as i128;
            relates_to(*relation, count, values, *bound)
        }
        What::BoolLinear {
            relation,
            coefficients,
            members,
            bound,
            ..
        } => {
            let sum = weight_of_true(values, coefficients.as_slice(), members.as_slice());
            relates_to(*relation, sum, values, *bound)
        }
        What::IntSum {
            relation,
            members,
            bound,
            ..
        } => relates_to(*relation, total(values, members.as_slice()), values, *bound),
        What::IntLinear {
            relation,
            coefficients,
            members,
            bound,
            ..
        } => {
            let sum = linear_sum(values, coefficients.as_slice(), members.as_slice());
            relates_to(*relation, sum, values, *bound)
        }
        What::IntOp {
            operation,
            left,
            right,
            value,
            ..
        } => gives(
            *operation,
            number_of(values, *left),
            number_of(values, *right),
            number_of(values, *value),
        ),
        What::Absolute { operand, value } => is_absolute(values, *operand, *value),
        What::IntArray {
            operation,
            members,
            value,
            ..
        } => is_aggregate(
            *operation,
            values,
            members.as_slice(),
            number_of(values, *value),
        ),
        What::IntAllDifferent {
            kind,
            members,
            truth,
            conditions,
            ..
        } => members_differ(
            *kind,
            values,
            members.as_slice(),
            truth_or_true(values, truth),
            terms_or_none(conditions),
        ),
        What::Lexicographic {
            order,
            left_truths,
            right_truths,
            left_numbers,
            right_numbers,
            truth,
            ..
        } => {
            let lists = OrderLists {
                left_truths: terms_or_none(left_truths),
                right_truths: terms_or_none(right_truths),
                left_numbers: terms_or_none(left_numbers),
                right_numbers: terms_or_none(right_numbers),
            };
            lists_in_order(*order, values, &lists, truth_or_true(values, truth))
        }
    }
}
