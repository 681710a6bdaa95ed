//! Two lists in order.

ghost use Rattle.std.specs.Prelude.{◌≡◌, IfOk};
ghost use Rattle.core_cost.specs.Saturated.{saturated};
ghost use Rattle.model_weight.specs.Statements.{weight_of_order};

use crate::lists::{pairs_of_steps, pairs_of_truths};
use core_cost::lex_cost;
use model_meaning::{Decl, Order, OrderLists};
use std::alloc::{AllocError, Global};

/// Two lists are in order.
pub(crate) fn order_weight(
    alloc: Global,
    decls: &[Decl],
    order: Order,
    lists: &OrderLists<'_>,
) -> Result<u128, AllocError>
    ensures { IfOk result
        (λ weight. weight
        ≡ saturated
        (weight_of_order order decls.now lists.now.left_truths.now lists.now.right_truths.now lists.now.left_numbers.now
        lists.now.right_numbers.now)) }
{
    if order.of_booleans {
        let pairs = pairs_of_truths(alloc, lists.left_truths, lists.right_truths)?;
        Ok(lex_cost(&pairs))
    } else {
        let pairs = pairs_of_steps(alloc, decls, lists.left_numbers, lists.right_numbers)?;
        Ok(lex_cost(&pairs))
    }
}
