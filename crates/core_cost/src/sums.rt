//! Sums of two integers.

ghost use Rattle.std.specs.Prelude.{◌≡◌, ◌^◌, ◌<◌, ◌+◌, ◌/◌, ◌≤◌, ◌∷◌, IfOk};
ghost use Rattle.std.specs.VecDeque.{deque_len};
ghost use Rattle.core_cost.specs.Saturated.{saturated};
ghost use Rattle.core_cost.specs.Network.{cost_of_table, cost_of_sum3_over};
ghost use Rattle.core_cost.specs.Sums.{first_units, second_units, cost_of_sum3, network_is_cheaper, fresh_sum_of};
ghost use Rattle.core_cost.specs.Sums.{cost_of_sum, spans_of};

use crate::comparisons::ladder_cost;
use crate::divisor::common_divisor;
use crate::network::{has_halves, network_cost, table_cost};
use crate::shape::Shape;
use std::alloc::AllocError;
use std::collections::VecDeque;

/// The quotient, rounded down; by 0 it is 0.
fn quotient(span: u128, divisor: u128) -> u128
    ensures { result ≡ span / divisor }
{
    if divisor == 0 { 0 } else { span / divisor }
}

/// The atoms of the two sides of a sum's network: the spans in units of the common divisor of all
/// weights.
fn atoms_of(first: Shape, second: Shape) -> (u128, u128)
    ensures first { result.0 ≡ first_units first second }
    ensures second { result.1 ≡ second_units first second }
{
    let common = common_divisor(first.divisor, second.divisor);
    (quotient(first.span, common), quotient(second.span, common))
}

/// A sum of two integers by their numbers of steps and the numbers of atoms of their network.
pub(crate) fn sum_over(
    first: u128,
    second: u128,
    sum_steps: u128,
    first_atoms: u128,
    second_atoms: u128,
) -> u128
    ensures { result ≡ saturated (cost_of_sum3_over first second sum_steps first_atoms second_atoms) }
{
    let mut encoded = table_cost(first, second);
    if has_halves(first_atoms, second_atoms) {
        encoded = encoded.min(network_cost(first_atoms, second_atoms, sum_steps));
    }
    ladder_cost(first)
        .saturating_add(ladder_cost(second))
        .saturating_add(ladder_cost(sum_steps))
        .saturating_add(encoded)
}

/// `first + second = sum`, where the sum has so many steps. It is encoded by its network where that
/// is cheaper than the table of the pairs of values.
pub fn sum3_cost(first: Shape, second: Shape, sum_steps: u128) -> u128
    ensures { result ≡ saturated (cost_of_sum3 first second sum_steps) }
{
    let (first_atoms, second_atoms) = atoms_of(first, second);
    sum_over(
        first.steps,
        second.steps,
        sum_steps,
        first_atoms,
        second_atoms,
    )
}

/// Whether the sum has a network that costs less than the table of the pairs of values. The table's
/// cost fits 128 bits wherever both numbers of steps are below 2^62.
pub fn is_network_cheaper(first: Shape, second: Shape, sum_steps: u128) -> bool
    requires { cost_of_table first.steps second.steps < 2 ^ 128 }
    ensures { result ≡ network_is_cheaper first second sum_steps }
{
    let (first_atoms, second_atoms) = atoms_of(first, second);
    has_halves(first_atoms, second_atoms)
        && network_cost(first_atoms, second_atoms, sum_steps)
            < table_cost(first.steps, second.steps)
}

/// The fresh integer that stands for the sum of two members of a longer sum.
pub fn fresh_sum(first: Shape, second: Shape) -> Shape
    requires { first.span + second.span < 2 ^ 128 }
    ensures { result ≡ fresh_sum_of first second }
{
    let divisor = common_divisor(first.divisor, second.divisor);
    let span = first.span + second.span;
    let further_sums = first
        .steps
        .saturating_mul(second.steps)
        .saturating_add(first.steps)
        .saturating_add(second.steps);
    Shape {
        steps: further_sums.min(quotient(span, divisor)),
        span,
        divisor,
    }
}

/// The front of a queue that has one.
fn take_front(queue: &mut VecDeque<Shape>) -> Shape
    requires { 0 < deque_len queue.old }
    ensures { queue.old.items ≡ result ∷ queue.new.items }
{
    match queue.pop_front() {
        Some(front) => front,
        None => Shape::constant(),
    }
}

/// The sum of at most three members.
fn short_sum(mut members: VecDeque<Shape>) -> u128
    requires { deque_len members ≤ 3 }
    ensures { result ≡ saturated (cost_of_sum members.items) }
{
    if members.is_empty() {
        return sum3_cost(Shape::constant(), Shape::constant(), 0);
    }
    let first = take_front(&mut members);
    if members.is_empty() {
        return sum3_cost(first, Shape::constant(), 0);
    }
    let second = take_front(&mut members);
    if members.is_empty() {
        return sum3_cost(first, Shape::constant(), second.steps);
    }
    let third = take_front(&mut members);
    sum3_cost(first, second, third.steps)
}

/// The members' sum is a number.
pub fn sum_cost(members: Vec<Shape>) -> Result<u128, AllocError>
    requires { spans_of members.items < 2 ^ 128 }
    ensures { IfOk result (λ cost. cost ≡ saturated (cost_of_sum members.items)) }
{
    let mut queue = VecDeque::from(members);
    let mut cost = 0u128;
    while queue.len() > 3 {
        let first = take_front(&mut queue);
        let second = take_front(&mut queue);
        let sum = fresh_sum(first, second);
        cost = cost
            .saturating_add(sum.steps)
            .saturating_add(sum3_cost(first, second, sum.steps));
        queue.push_back(sum)?;
    }
    Ok(cost.saturating_add(short_sum(queue)))
}
