//! Counts of true members, by halves.

ghost use Rattle.std.specs.Prelude.{◌≡◌, ℕ, ◌+◌, ◌^◌, ◌<◌, ◌≤◌};
ghost use Rattle.core_cost.specs.Saturated.{saturated};
ghost use Rattle.core_cost.specs.Network.{half_up, half_down};
ghost use Rattle.core_cost.specs.Counts.{cost_of_half, cost_of_count};

use crate::sums::sum_over;

/// What a half adds, by the cost of its count.
fn half_cost(members: u128, counted: u128) -> u128
    ensures { (x : ℕ) → counted ≡ saturated x → result ≡ saturated (cost_of_half members x) }
{
    if members >= 2 {
        members.saturating_add(counted)
    } else {
        0
    }
}

/// What one of two neighbouring numbers of members adds, by the costs of the counts of both.
fn half_of(members: u128, low: u128, costs: (u128, u128)) -> u128
    requires low { low ≤ members }
    requires high { members ≤ low + 1 }
    requires low_cost { costs.0 ≡ saturated (cost_of_count low low) }
    requires high_cost { costs.1 ≡ saturated (cost_of_count (low + 1) (low + 1)) }
    ensures { result ≡ saturated (cost_of_half members (cost_of_count members members)) }
{
    let counted = if members == low { costs.0 } else { costs.1 };
    half_cost(members, counted)
}

/// The count of members, by the costs one depth further down.
fn count_over(members: u128, sum_steps: u128, low: u128, costs: (u128, u128)) -> u128
    requires fits { members + 1 < 2 ^ 128 }
    requires low { low ≤ half_down members }
    requires high { half_up members ≤ low + 1 }
    requires low_cost { costs.0 ≡ saturated (cost_of_count low low) }
    requires high_cost { costs.1 ≡ saturated (cost_of_count (low + 1) (low + 1)) }
    ensures { result ≡ saturated (cost_of_count members sum_steps) }
{
    if members < 2 {
        return sum_over(members, 0, sum_steps, members, 0);
    }
    let (first, second) = ((members + 1) / 2, members / 2);
    half_of(first, low, costs)
        .saturating_add(half_of(second, low, costs))
        .saturating_add(sum_over(first, second, sum_steps, first, second))
}

/// The costs of the counts of n and n + 1 members by integers of as many steps.
fn counts_around(n: u128) -> (u128, u128)
    requires { n + 2 < 2 ^ 128 }
    ensures low { result.0 ≡ saturated (cost_of_count n n) }
    ensures high { result.1 ≡ saturated (cost_of_count (n + 1) (n + 1)) }
{
    if n == 0 {
        return (6, 12);
    }
    let low = n / 2;
    let costs = counts_around(low);
    (
        count_over(n, n, low, costs),
        count_over(n + 1, n + 1, low, costs),
    )
}

/// The number of true members is an integer with so many steps.
pub fn count_cost(members: usize, sum_steps: u128) -> u128
    ensures { result ≡ saturated (cost_of_count members sum_steps) }
{
    let members = members as u128;
    let low = members / 2;
    count_over(members, sum_steps, low, counts_around(low))
}
