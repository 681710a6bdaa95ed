//! Linear sums that are compared.

ghost use Rattle.std.specs.Prelude.{◌≡◌, ◌+◌, ◌^◌, ◌≤◌, ◌<◌, ◌++◌, ◌∷◌, [], List};
ghost use Rattle.std.specs.Prelude.{length, drop, IfOk};
ghost use Rattle.std.specs.VecDeque.{deque_len};
ghost use Rattle.core_cost.specs.declared.shape.Shape.{Shape};
ghost use Rattle.core_cost.specs.Saturated.{saturated};
ghost use Rattle.core_cost.specs.Sums.{spans_of, fresh_sum_of};
ghost use Rattle.model_meaning.specs.Limits.{AllInLimit, DeclsInLimit};
ghost use Rattle.model_weight.specs.Shapes.{shape_in};
ghost use Rattle.model_weight.specs.Linear.{scaled_truths, scaled_numbers, numbers, with_steps, steps_of_first};
ghost use Rattle.model_weight.specs.Linear.{weight_of_fresh_sum, weight_of_compared, weight_of_sum, weight_of_linear};

use crate::comparisons::comparison_weight;
use crate::members::{add_member, numbers, scaled_numbers, scaled_truths};
use crate::shapes::shape_in;
use core_cost::{Shape, fresh_sum, sum_cost, sum3_cost};
use model_meaning::{BoolTerm, Decl, IntTerm, Relation};
use std::alloc::{AllocError, Global};
use std::collections::VecDeque;

/// A fresh integer is the sum of two members.
fn fresh_sum_weight(first: Shape, second: Shape, sum: Shape) -> u128
    requires { sum ≡ fresh_sum_of first second }
    ensures { result ≡ saturated (weight_of_fresh_sum first second) }
{
    sum.steps
        .saturating_add(sum3_cost(first, second, sum.steps))
}

/// The front of a queue that has one.
fn take_front(queue: &mut VecDeque<Shape>) -> Shape
    requires { 0 < deque_len queue.old }
    ensures { queue.old.items ≡ result ∷ queue.new.items }
{
    match queue.pop_front() {
        Some(front) => front,
        None => Shape::constant(),
    }
}

/// How many steps the front of a queue has, which is taken out; none where there is no front.
fn take_steps(queue: &mut VecDeque<Shape>) -> u128
    ensures steps { result ≡ steps_of_first queue.old.items }
    ensures rest { queue.new.items ≡ drop 1 queue.old.items }
{
    match queue.pop_front() {
        Some(front) => front.steps,
        None => 0,
    }
}

/// The members' sum is compared to a number otherwise than by equality: two by two they make way for a fresh sum behind
/// the others, until two are left.
fn compared_weight(relation: Relation, members: Vec<Shape>) -> Result<u128, AllocError>
    requires { spans_of members.items < 2 ^ 128 }
    ensures { IfOk result (λ weight. weight ≡ saturated (weight_of_compared relation members.items)) }
{
    let mut queue = VecDeque::from(members);
    let mut weight = 0u128;
    while queue.len() > 2 {
        let first = take_front(&mut queue);
        let second = take_front(&mut queue);
        let sum = fresh_sum(first, second);
        weight = weight.saturating_add(fresh_sum_weight(first, second, sum));
        queue.push_back(sum)?;
    }
    let left = take_steps(&mut queue);
    let right = take_steps(&mut queue);
    Ok(weight.saturating_add(comparison_weight(relation, left, right)))
}

/// The sum of members with steps stands in a relation to a number.
fn sum_weight(relation: Relation, members: Vec<Shape>) -> Result<u128, AllocError>
    requires { spans_of members.items < 2 ^ 128 }
    ensures { IfOk result (λ weight. weight ≡ saturated (weight_of_sum relation members.items)) }
{
    match relation {
        Relation::Eq => sum_cost(members),
        _ => compared_weight(relation, members),
    }
}

/// Members that have steps are added, and their sum stands in a relation to the right side.
fn linear_weight(
    relation: Relation,
    mut members: Vec<Shape>,
    right: Shape,
) -> Result<u128, AllocError>
    requires { spans_of members.items + right.span < 2 ^ 128 }
    ensures { (given : List Shape) → members.items ≡ with_steps given
        → IfOk result (λ weight. weight ≡ saturated (weight_of_linear relation given right)) }
{
    add_member(&mut members, right)?;
    sum_weight(relation, members)
}

/// The number of true members, each times its coefficient, stands in a relation to an integer.
pub(crate) fn truths_weight(
    alloc: Global,
    decls: &[Decl],
    relation: Relation,
    coefficients: &[i64],
    members: &[BoolTerm],
    right: IntTerm,
) -> Result<u128, AllocError>
    requires decls { DeclsInLimit decls.now }
    requires coefficients { AllInLimit coefficients.now }
    requires members { length members.now ≤ 16777216 }
    ensures { IfOk result
        (λ weight. weight
        ≡ saturated
        (weight_of_linear relation (scaled_truths coefficients.now members.now) (shape_in decls.now right))) }
{
    let shapes = scaled_truths(alloc, coefficients, members)?;
    linear_weight(relation, shapes, shape_in(decls, right))
}

/// The sum of the members, each times its coefficient, stands in a relation to an integer.
pub(crate) fn numbers_weight(
    alloc: Global,
    decls: &[Decl],
    relation: Relation,
    coefficients: &[i64],
    members: &[IntTerm],
    right: IntTerm,
) -> Result<u128, AllocError>
    requires decls { DeclsInLimit decls.now }
    requires coefficients { AllInLimit coefficients.now }
    requires members { length members.now ≤ 16777216 }
    ensures { IfOk result
        (λ weight. weight
        ≡ saturated
        (weight_of_linear relation (scaled_numbers decls.now coefficients.now members.now)
        (shape_in decls.now right))) }
{
    let shapes = scaled_numbers(alloc, decls, coefficients, members)?;
    linear_weight(relation, shapes, shape_in(decls, right))
}

/// The sum of the members stands in a relation to an integer.
pub(crate) fn total_weight(
    alloc: Global,
    decls: &[Decl],
    relation: Relation,
    members: &[IntTerm],
    right: IntTerm,
) -> Result<u128, AllocError>
    requires decls { DeclsInLimit decls.now }
    requires members { length members.now ≤ 16777216 }
    ensures { IfOk result
        (λ weight. weight
        ≡ saturated (weight_of_linear relation (numbers decls.now members.now) (shape_in decls.now right))) }
{
    let shapes = numbers(alloc, decls, members)?;
    linear_weight(relation, shapes, shape_in(decls, right))
}
