//! Comparisons of two integers, and of a count of true members.

ghost use Rattle.std.specs.Prelude.{◌≡◌};
ghost use Rattle.core_cost.specs.Saturated.{saturated};
ghost use Rattle.model_weight.specs.Comparisons.{weight_of_comparison, weight_of_fresh_count, weight_of_count};

use core_cost::{count_cost, eq_cost, leq_cost};
use model_meaning::Relation;

/// An atom is the truth of a comparison of two integers with so many steps.
pub(crate) fn comparison_weight(relation: Relation, left: u128, right: u128) -> u128
    ensures { result ≡ saturated (weight_of_comparison relation left right) }
{
    match relation {
        Relation::Leq | Relation::Gt => leq_cost(left, right),
        Relation::Geq | Relation::Lt => leq_cost(right, left),
        Relation::Eq | Relation::Neq => eq_cost(left, right),
    }
}

/// A fresh integer counts the true members, and is compared.
fn fresh_count_weight(relation: Relation, members: usize, bound: u128) -> u128
    ensures { result ≡ saturated (weight_of_fresh_count relation members bound) }
{
    let count = members as u128;
    count
        .saturating_add(count_cost(members, count))
        .saturating_add(comparison_weight(relation, count, bound))
}

/// The number of true members is compared to an integer with so many steps.
pub(crate) fn count_weight(relation: Relation, members: usize, bound: u128) -> u128
    ensures { result ≡ saturated (weight_of_count relation members bound) }
{
    match relation {
        Relation::Eq => count_cost(members, bound),
        _ => fresh_count_weight(relation, members, bound),
    }
}
