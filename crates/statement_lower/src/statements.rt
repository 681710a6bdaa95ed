//! The cores of a statement.

ghost use Rattle.std.specs.Prelude.{◌≡◌, ◌<◌, ◌^◌, IfOk};
ghost use Rattle.model_meaning.specs.Limits.{WhatInLimit};
ghost use Rattle.statement_lower.specs.Entries.{AreInLimit};
ghost use Rattle.statement_lower.specs.Lines.{made_of};

use crate::list_lines::atom_or_true;
use crate::lowering::Lowering;
use crate::made::MadeCores;
use model_meaning::{OrderLists, What, terms_or_none};
use order_ints::{Atom, MapValue};
use std::alloc::{AllocError, Global};

/// What a statement is lowered to behind so many variables.
pub fn made_of(
    alloc: Global,
    entries: &[MapValue],
    vars: u32,
    what: &What,
) -> Result<MadeCores, AllocError>
    requires entries { AreInLimit entries.now }
    requires what { WhatInLimit what.now }
    requires room { (made_of vars entries.now what.now).vars < 2 ^ 27 }
    ensures { IfOk result (λ m. m ≡ made_of vars entries.now what.now) }
{
    let lowering = Lowering {
        alloc,
        entries,
        vars,
    };
    match what {
        What::BoolToInt { truth, number } => lowering.bit_made(*truth, *number),
        What::BoolEq { left, right } => lowering.equal_made(*left, *right),
        What::BoolOp {
            operator,
            left,
            right,
            truth,
            ..
        } => lowering.pair_made(*operator, *left, *right, *truth),
        What::BoolArray {
            operator,
            members,
            ..
        } => lowering.array_made(*operator, members.as_slice()),
        What::BoolArrayReified {
            operator,
            members,
            truth,
            ..
        } => lowering.truth_made(*operator, members.as_slice(), *truth),
        What::Compare {
            relation,
            left,
            right,
            ..
        } => lowering.comparison_made(*relation, Atom::True, *left, *right),
        What::CompareReified {
            relation,
            left,
            right,
            truth,
            ..
        } => lowering.reified_made(*relation, *left, *right, *truth),
        What::BoolSum {
            relation,
            members,
            bound,
            ..
        } => lowering.count_made(*relation, members.as_slice(), *bound),
        What::BoolLinear {
            relation,
            coefficients,
            members,
            bound,
            ..
        } => {
            let coefficients = coefficients.as_slice();
            let members = members.as_slice();
            lowering.truths_made(*relation, coefficients, members, *bound)
        }
        What::IntSum {
            relation,
            members,
            bound,
            ..
        } => lowering.sum_made(*relation, members.as_slice(), *bound),
        What::IntLinear {
            relation,
            coefficients,
            members,
            bound,
            ..
        } => {
            let coefficients = coefficients.as_slice();
            let members = members.as_slice();
            lowering.multiples_made(*relation, coefficients, members, *bound)
        }
        What::IntOp {
            operation,
            left,
            right,
            value,
            ..
        } => lowering.operation_made(*operation, *left, *right, *value),
        What::Absolute { operand, value } => lowering.absolute_made(*operand, *value),
        What::IntArray {
            operation,
            members,
            value,
            ..
        } => lowering.aggregate_made(*operation, members.as_slice(), *value),
        What::IntAllDifferent {
            kind,
            members,
            truth,
            conditions,
            ..
        } => {
            let members = members.as_slice();
            let truth = atom_or_true(entries, truth);
            lowering.different_made(*kind, members, truth, terms_or_none(conditions))
        }
        What::Lexicographic {
            order,
            left_truths,
            right_truths,
            left_numbers,
            right_numbers,
            truth,
            ..
        } => {
            let lists = OrderLists {
                left_truths: terms_or_none(left_truths),
                right_truths: terms_or_none(right_truths),
                left_numbers: terms_or_none(left_numbers),
                right_numbers: terms_or_none(right_numbers),
            };
            lowering.order_made(*order, &lists, truth)
        }
    }
}
