//! Reified all-different, in one pass over the members by their numbers of steps.

ghost use Rattle.std.specs.Prelude.{◌≡◌, ℕ, ◌*◌, List, length};
ghost use Rattle.core_cost.specs.Saturated.{saturated};
ghost use Rattle.model_weight.specs.Pairs.{weight_of_reified_all_different, count_of_pairs, weight_as_lesser};
ghost use Rattle.model_weight.specs.Pairs.{weight_as_greater, weight_of_ascending};

use core_cost::ladder_cost;

/// What a member adds to each pair in which it has the lesser number of steps: the fresh Boolean, and what of the
/// equality depends on it.
fn lesser_weight(steps: u128) -> u128
    ensures { result ≡ saturated (weight_as_lesser steps) }
{
    steps
        .saturating_mul(8)
        .saturating_add(12)
        .saturating_add(ladder_cost(steps))
}

/// What a member adds to each pair in which it has the greater number of steps.
fn greater_weight(steps: u128) -> u128
    ensures { result ≡ saturated (weight_as_greater steps) }
{
    steps.saturating_mul(3).saturating_add(ladder_cost(steps))
}

/// So many times a number.
fn times(count: u128, number: u128) -> u128
    ensures { (x : ℕ) → number ≡ saturated x → result ≡ saturated (count * x) }
{
    count.saturating_mul(number)
}

/// All pairs of ascending numbers of steps, from the greatest down.
fn ascending_weight(steps: &[u128]) -> u128
    ensures { result ≡ saturated (weight_of_ascending steps.now) }
{
    let mut weight = 0u128;
    let mut behind = 0u128;
    for i in (0..steps.len()).rev() {
        let count = (steps.len() - 1 - i) as u128;
        weight = times(count, lesser_weight(steps[i]))
            .saturating_add(behind)
            .saturating_add(weight);
        behind = greater_weight(steps[i]).saturating_add(behind);
    }
    weight
}

/// How many pairs so many members have.
fn pair_count(members: usize) -> u128
    ensures { (ns : List ℕ) → length ns ≡ members → result ≡ count_of_pairs ns }
{
    let count = members as u128;
    count * count.saturating_sub(1) / 2
}

/// The truth of the members' being different, by their numbers of steps. It takes a sort and one pass.
pub(crate) fn reified_all_different_weight(mut steps: Vec<u128>) -> u128
    ensures { result ≡ saturated (weight_of_reified_all_different steps.items) }
{
    steps.sort_unstable();
    let pairs = pair_count(steps.len());
    ascending_weight(&steps)
        .saturating_add(pairs.saturating_mul(3))
        .saturating_add(1)
}
