//! Operations on two integers, and on lists of integers.

ghost use Rattle.std.specs.Prelude.{◌≡◌, ◌≤◌, length, IfOk};
ghost use Rattle.core_cost.specs.Saturated.{saturated};
ghost use Rattle.model_meaning.specs.Limits.{DeclsInLimit};
ghost use Rattle.model_weight.specs.Statements.{steps_of_remainder, steps_of_quotient, weight_of_operation};
ghost use Rattle.model_weight.specs.Statements.{weight_of_aggregate, weight_of_all_different};
ghost use Rattle.model_weight.specs.Shapes.{all_steps, steps_in, lent_domain};
ghost use Rattle.core_cost.specs.Arithmetic.{cost_of_max};

use crate::linear::total_weight;
use crate::lists::all_steps;
use crate::pairs::reified_all_different_weight;
use crate::shapes::{Domain, greatest, least, shape, steps, steps_in};
use core_cost::{all_diff_cost, div_mod_cost, max_cost, prod_cost, sum3_cost};
use model_meaning::{Aggregate, AllDifferent, Arithmetic, Decl, IntTerm, Relation};
use std::alloc::{AllocError, Global};

/// How many steps the fresh remainder of a division has.
fn remainder_steps(dividend: Domain<'_>, divisor: Domain<'_>) -> u128
    ensures { result ≡ steps_of_remainder (lent_domain dividend.entry) (lent_domain divisor.entry) }
{
    greatest(dividend).min(greatest(divisor).saturating_sub(1))
}

/// How many steps the fresh quotient of a division has.
fn quotient_steps(dividend: Domain<'_>, divisor: Domain<'_>) -> u128
    ensures { result ≡ steps_of_quotient (lent_domain dividend.entry) (lent_domain divisor.entry) }
{
    let least = least(divisor);
    if least == 0 {
        0
    } else {
        greatest(dividend) / least
    }
}

/// An integer is what an operation gives of two others, by the domains of the three.
pub(crate) fn operation_weight(
    operation: Arithmetic,
    left: Domain<'_>,
    right: Domain<'_>,
    value: Domain<'_>,
) -> u128
    ensures { result
        ≡ saturated
        (weight_of_operation operation (lent_domain left.entry) (lent_domain right.entry) (lent_domain value.entry)) }
{
    let (first, second, third) = (steps(left), steps(right), steps(value));
    match operation {
        Arithmetic::Plus => sum3_cost(shape(left), shape(right), third),
        Arithmetic::Times => prod_cost(first, second, third),
        Arithmetic::Div => {
            let fresh = remainder_steps(left, right);
            fresh.saturating_add(div_mod_cost(first, second, third, fresh))
        }
        Arithmetic::Mod => {
            let fresh = quotient_steps(left, right);
            fresh.saturating_add(div_mod_cost(first, second, fresh, third))
        }
        Arithmetic::Max | Arithmetic::Min => max_cost(&[first, second], third),
    }
}

/// An integer is the greatest or the least member of a list.
fn extreme_weight(
    alloc: Global,
    decls: &[Decl],
    members: &[IntTerm],
    value: IntTerm,
) -> Result<u128, AllocError>
    ensures { IfOk result
        (λ weight. weight ≡ saturated (cost_of_max (all_steps decls.now members.now) (steps_in decls.now value))) }
{
    let steps = all_steps(alloc, decls, members)?;
    Ok(max_cost(&steps, steps_in(decls, value)))
}

/// An integer is the sum, the greatest or the least member of a list.
pub(crate) fn aggregate_weight(
    alloc: Global,
    decls: &[Decl],
    operation: Aggregate,
    members: &[IntTerm],
    value: IntTerm,
) -> Result<u128, AllocError>
    requires decls { DeclsInLimit decls.now }
    requires members { length members.now ≤ 16777216 }
    ensures { IfOk result
        (λ weight. weight ≡ saturated (weight_of_aggregate operation decls.now members.now value)) }
{
    match operation {
        Aggregate::Plus => total_weight(alloc, decls, Relation::Eq, members, value),
        Aggregate::Max | Aggregate::Min => extreme_weight(alloc, decls, members, value),
    }
}

/// Members of a list differ.
pub(crate) fn all_different_weight(
    alloc: Global,
    decls: &[Decl],
    kind: AllDifferent,
    members: &[IntTerm],
) -> Result<u128, AllocError>
    ensures { IfOk result
        (λ weight. weight ≡ saturated (weight_of_all_different kind (all_steps decls.now members.now))) }
{
    let steps = all_steps(alloc, decls, members)?;
    match kind {
        AllDifferent::Plain | AllDifferent::Conditional => Ok(all_diff_cost(&steps)),
        AllDifferent::Reified => Ok(reified_all_different_weight(steps)),
    }
}
