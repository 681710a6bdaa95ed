//! The weights of statements, line by line.

ghost use Rattle.std.specs.Prelude.{◌≡◌, IfOk};
ghost use Rattle.core_cost.specs.Saturated.{saturated};
ghost use Rattle.model_meaning.specs.Limits.{DeclsInLimit, WhatInLimit};
ghost use Rattle.model_weight.specs.Statements.{weight_of_what};

use crate::arrays::{array_weight, reified_array_weight};
use crate::comparisons::{comparison_weight, count_weight};
use crate::linear::{numbers_weight, total_weight, truths_weight};
use crate::operations::{aggregate_weight, all_different_weight, operation_weight};
use crate::orders::order_weight;
use crate::shapes::{domain_of, steps_in};
use core_cost::{eq_cost, max_cost, parity_cost};
use model_meaning::{Decl, OrderLists, What, terms_or_none};
use std::alloc::{AllocError, Global};

/// The weight of a statement.
pub(crate) fn statement_weight(
    alloc: Global,
    decls: &[Decl],
    what: &What,
) -> Result<u128, AllocError>
    requires decls { DeclsInLimit decls.now }
    requires what { WhatInLimit what.now }
    ensures { IfOk result (λ weight. weight ≡ saturated (weight_of_what decls.now what.now)) }
{
    match what {
        What::BoolToInt { number, .. } => Ok(eq_cost(steps_in(decls, *number), 1)),
        What::BoolEq { .. } => Ok(parity_cost(2)),
        What::BoolOp { operator, .. } => Ok(reified_array_weight(*operator, 2)),
        What::BoolArray {
            operator,
            members,
            ..
        } => Ok(array_weight(*operator, members.len())),
        What::BoolArrayReified {
            operator,
            members,
            ..
        } => Ok(reified_array_weight(*operator, members.len())),
        What::Compare {
            relation,
            left,
            right,
            ..
        } => Ok(comparison_weight(*relation, steps_in(decls, *left), steps_in(decls, *right))),
        What::CompareReified {
            relation,
            left,
            right,
            ..
        } => Ok(comparison_weight(*relation, steps_in(decls, *left), steps_in(decls, *right))),
        What::BoolSum {
            relation,
            members,
            bound,
            ..
        } => Ok(count_weight(*relation, members.len(), steps_in(decls, *bound))),
        What::BoolLinear {
            relation,
            coefficients,
            members,
            bound,
            ..
        } => truths_weight(
            alloc,
            decls,
            *relation,
            coefficients.as_slice(),
            members.as_slice(),
            *bound,
        ),
        What::IntSum {
            relation,
            members,
            bound,
            ..
        } => total_weight(alloc, decls, *relation, members.as_slice(), *bound),
        What::IntLinear {
            relation,
            coefficients,
            members,
            bound,
            ..
        } => numbers_weight(
            alloc,
            decls,
            *relation,
            coefficients.as_slice(),
            members.as_slice(),
            *bound,
        ),
        What::IntOp {
            operation,
            left,
            right,
            value,
            ..
        } => Ok(operation_weight(
            *operation,
            domain_of(decls, *left),
            domain_of(decls, *right),
            domain_of(decls, *value),
        )),
        What::Absolute { operand, value } => {
            let steps = steps_in(decls, *operand);
            Ok(max_cost(&[steps, steps], steps_in(decls, *value)))
        }
        What::IntArray {
            operation,
            members,
            value,
            ..
        } => aggregate_weight(alloc, decls, *operation, members.as_slice(), *value),
        What::IntAllDifferent { kind, members, .. } => {
            all_different_weight(alloc, decls, *kind, members.as_slice())
        }
        What::Lexicographic {
            order,
            left_truths,
            right_truths,
            left_numbers,
            right_numbers,
            ..
        } => {
            let lists = OrderLists {
                left_truths: terms_or_none(left_truths),
                right_truths: terms_or_none(right_truths),
                left_numbers: terms_or_none(left_numbers),
                right_numbers: terms_or_none(right_numbers),
            };
            order_weight(alloc, decls, *order, &lists)
        }
    }
}
