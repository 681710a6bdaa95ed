//! Operators of lists of Booleans.

ghost use Rattle.std.specs.Prelude.{◌≡◌, ◌+◌, ◌<◌, ◌^◌};
ghost use Rattle.core_cost.specs.Saturated.{saturated};
ghost use Rattle.model_weight.specs.Statements.{weight_of_array, weight_of_reified_array};

use core_cost::{clause_cost, conj_cost, parity_cost};
use model_meaning::Operator;

/// An operator of so many members is true.
pub(crate) fn array_weight(operator: Operator, members: usize) -> u128
    ensures { result ≡ saturated (weight_of_array operator members) }
{
    match operator {
        Operator::Or => clause_cost(members),
        Operator::And => conj_cost(members),
        Operator::Xor => parity_cost(members),
        Operator::Iff => members.saturating_sub(1) as u128 * parity_cost(2),
    }
}

/// A Boolean is an operator of so many members.
pub(crate) fn reified_array_weight(operator: Operator, members: usize) -> u128
    requires { members + 1 < 2 ^ 64 }
    ensures { result ≡ saturated (weight_of_reified_array operator members) }
{
    match operator {
        Operator::Or | Operator::And => conj_cost(members),
        Operator::Xor => parity_cost(members + 1),
        Operator::Iff => 2 + conj_cost(members) + conj_cost(members) + conj_cost(2),
    }
}
