//! Merge networks, depth by depth: at each depth, only the two roundings of the numbers of atoms over
//! a power of two stand in their places, so that four costs are enough for the depth above.
//!
//! Odd-even merging: Batcher 1968.

ghost use Rattle.std.specs.Prelude.{◌≡◌, ℕ, ◌+◌, ◌^◌, ◌<◌, ◌≤◌};
ghost use Rattle.core_cost.specs.Saturated.{saturated};
ghost use Rattle.core_cost.specs.Network.{half_up, half_down, has_network, cost_of_table, cost_over_halves};
ghost use Rattle.core_cost.specs.Network.{cost_of_unit_sum, cost_of_network};
ghost use Rattle.core_cost.specs.Neighbours.{AreAround, moved_up};

use crate::arithmetic::pairs;
use crate::comparisons::{eq_cost, ladder_cost};

/// The costs of the sums of n or n + 1 and m or m + 1 steps of weight 1.
#[derive(Clone, Copy)]
struct Neighbours {
    low_low: u128,
    low_high: u128,
    high_low: u128,
    high_high: u128,
}

impl Neighbours {
    fn at(&self, first_up: bool, second_up: bool) -> u128
        ensures { (n m : ℕ) → AreAround n m self.now
            → result ≡ saturated (cost_of_unit_sum (moved_up n first_up) (moved_up m second_up)) }
    {
        match (first_up, second_up) {
            (false, false) => self.low_low,
            (false, true) => self.low_high,
            (true, false) => self.high_low,
            (true, true) => self.high_high,
        }
    }
}

/// Both sides have an atom, and one has two.
pub(crate) fn has_halves(first: u128, second: u128) -> bool
    ensures { result ≡ has_network first second }
{
    first >= 1 && second >= 1 && (first > 1 || second > 1)
}

/// A table of the pairs of values.
pub(crate) fn table_cost(first: u128, second: u128) -> u128
    ensures { result ≡ saturated (cost_of_table first second) }
{
    pairs(first, second).saturating_mul(6)
}

/// A network by the costs of its halves.
fn over_halves(odd: u128, even: u128, wires: u128, sum_steps: u128) -> u128
    ensures { (x y : ℕ) → odd ≡ saturated x → even ≡ saturated y
        → result ≡ saturated (cost_over_halves x y wires sum_steps) }
{
    let comparators = wires.saturating_sub(1) / 2;
    odd.saturating_add(even)
        .saturating_add(wires)
        .saturating_add(comparators.saturating_mul(16))
        .saturating_add(eq_cost(wires, sum_steps))
}

/// The sum of two numbers of unit steps, by the costs one depth further down.
fn unit_sum(
    first: u128,
    second: u128,
    low_first: u128,
    low_second: u128,
    deeper: &Neighbours,
) -> u128
    requires fits { first + second < 2 ^ 128 }
    requires first_down { low_first ≤ half_down first }
    requires first_up { half_up first ≤ low_first + 1 }
    requires second_down { low_second ≤ half_down second }
    requires second_up { half_up second ≤ low_second + 1 }
    requires deeper { AreAround low_first low_second deeper.now }
    ensures { result ≡ saturated (cost_of_unit_sum first second) }
{
    let wires = first + second;
    let ladders = ladder_cost(first)
        .saturating_add(ladder_cost(second))
        .saturating_add(ladder_cost(wires));
    let table = table_cost(first, second);
    if !has_halves(first, second) {
        return ladders.saturating_add(table);
    }
    let odd = deeper.at((first + 1) / 2 > low_first, (second + 1) / 2 > low_second);
    let even = deeper.at(first / 2 > low_first, second / 2 > low_second);
    ladders.saturating_add(table.min(over_halves(odd, even, wires, wires)))
}

/// The costs of the sums of n or n + 1 and m or m + 1 unit steps. The numbers halve at each depth.
fn around(n: u128, m: u128) -> Neighbours
    requires { n + m + 2 < 2 ^ 128 }
    ensures { AreAround n m result }
{
    if n == 0 && m == 0 {
        return Neighbours {
            low_low: 6,
            low_high: 12,
            high_low: 12,
            high_high: 26,
        };
    }
    let (first, second) = (n / 2, m / 2);
    let deeper = around(first, second);
    Neighbours {
        low_low: unit_sum(n, m, first, second, &deeper),
        low_high: unit_sum(n, m + 1, first, second, &deeper),
        high_low: unit_sum(n + 1, m, first, second, &deeper),
        high_high: unit_sum(n + 1, m + 1, first, second, &deeper),
    }
}

/// The network of two numbers of atoms, for a sum with so many steps. It takes a few hundred
/// operations, whatever the numbers.
pub fn network_cost(first: u128, second: u128, sum_steps: u128) -> u128
    ensures { result ≡ saturated (cost_of_network first second sum_steps) }
{
    let Some(wires) = first.checked_add(second) else {
        return u128::MAX;
    };
    let halves = around(first / 2, second / 2);
    let odd = halves.at(first % 2 == 1, second % 2 == 1);
    let even = halves.at(false, false);
    over_halves(odd, even, wires, sum_steps)
}
