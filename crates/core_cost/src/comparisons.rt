//! The forms that say that an integer is ordered, or compare integers. A number of steps is that of
//! an integer in the order encoding, whose values are one more.

ghost use Rattle.std.specs.Prelude.{◌≡◌};
ghost use Rattle.core_cost.specs.Saturated.{saturated};
ghost use Rattle.core_cost.specs.Comparisons.{cost_of_ladder, cost_of_leq, cost_of_eq, cost_of_pair, cost_of_lex};

/// That an integer is ordered.
pub fn ladder_cost(steps: u128) -> u128
    ensures { result ≡ saturated (cost_of_ladder steps) }
{
    steps.saturating_sub(1).saturating_mul(2)
}

/// The truth of `first <= second`.
pub fn leq_cost(first: u128, second: u128) -> u128
    ensures { result ≡ saturated (cost_of_leq first second) }
{
    first
        .saturating_add(second)
        .saturating_add(2)
        .saturating_mul(3)
        .saturating_add(ladder_cost(first))
        .saturating_add(ladder_cost(second))
}

/// The truth of `first = second`.
pub fn eq_cost(first: u128, second: u128) -> u128
    ensures { result ≡ saturated (cost_of_eq first second) }
{
    let both = first.min(second).saturating_add(1).saturating_mul(5);
    leq_cost(first, second).saturating_add(both)
}

/// What a pair before the last adds.
fn pair_cost(pair: (u128, u128)) -> u128
    ensures { result ≡ saturated (cost_of_pair pair) }
{
    leq_cost(pair.0, pair.1)
        .saturating_mul(2)
        .saturating_add(18)
}

/// The truth of one list of integers before another, by the pairs of their numbers of steps.
pub fn lex_cost(pairs: &[(u128, u128)]) -> u128
    ensures { result ≡ saturated (cost_of_lex pairs.now) }
{
    let Some((last, before)) = pairs.split_last() else {
        return 1;
    };
    let mut cost = leq_cost(last.0, last.1);
    for &pair in before {
        cost = cost.saturating_add(pair_cost(pair));
    }
    cost
}
