//! Products, the greatest of members, and different members, by the integers' numbers of steps.

ghost use Rattle.std.specs.Prelude.{◌≡◌};
ghost use Rattle.core_cost.specs.Saturated.{saturated};
ghost use Rattle.core_cost.specs.Arithmetic.{cost_of_member, cost_of_max, cost_of_different, cost_of_all_diff};
ghost use Rattle.core_cost.specs.Arithmetic.{pairs_of_values, cost_of_prod, cost_of_div_mod};

use crate::comparisons::ladder_cost;

/// What a member adds to the cost of the greatest member.
fn member_cost(steps: u128) -> u128
    ensures { result ≡ saturated (cost_of_member steps) }
{
    steps
        .saturating_add(1)
        .saturating_mul(2)
        .saturating_add(ladder_cost(steps))
}

/// The greatest of the members.
pub fn max_cost(members: &[u128], greatest: u128) -> u128
    ensures { result ≡ saturated (cost_of_max members.now greatest) }
{
    let places = members.len() as u128;
    let mut cost = pairs(greatest, places).saturating_add(ladder_cost(greatest));
    for &steps in members {
        cost = cost.saturating_add(member_cost(steps));
    }
    cost
}

/// What a member adds to the cost of different members.
fn different_cost(steps: u128) -> u128
    ensures { result ≡ saturated (cost_of_different steps) }
{
    steps
        .saturating_add(1)
        .saturating_mul(19)
        .saturating_add(ladder_cost(steps))
}

/// The members at two places differ where the conditions of both places are true.
pub fn all_diff_cost(members: &[u128]) -> u128
    ensures { result ≡ saturated (cost_of_all_diff members.now) }
{
    let mut cost = 0u128;
    for &steps in members {
        cost = cost.saturating_add(different_cost(steps));
    }
    cost
}

/// The pairs of a value of one integer and a value of another.
pub(crate) fn pairs(first: u128, second: u128) -> u128
    ensures { result ≡ saturated (pairs_of_values first second) }
{
    first
        .saturating_add(1)
        .saturating_mul(second.saturating_add(1))
}

/// `first` times `second` is `product`.
pub fn prod_cost(first: u128, second: u128, product: u128) -> u128
    ensures { result ≡ saturated (cost_of_prod first second product) }
{
    pairs(first, second)
        .saturating_mul(10)
        .saturating_add(ladder_cost(first))
        .saturating_add(ladder_cost(second))
        .saturating_add(ladder_cost(product))
}

/// `dividend` is `divisor` times `quotient` and `remainder`.
pub fn div_mod_cost(dividend: u128, divisor: u128, quotient: u128, remainder: u128) -> u128
    ensures { result ≡ saturated (cost_of_div_mod dividend divisor quotient remainder) }
{
    pairs(dividend, divisor)
        .saturating_mul(20)
        .saturating_add(ladder_cost(dividend))
        .saturating_add(ladder_cost(divisor))
        .saturating_add(ladder_cost(quotient))
        .saturating_add(ladder_cost(remainder))
}
