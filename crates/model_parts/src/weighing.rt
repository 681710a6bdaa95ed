//! What no part of a model weighs more than.

ghost use Rattle.std.specs.Prelude.{◌≡◌, IfOk};
ghost use Rattle.core_cost.specs.Saturated.{saturated};
ghost use Rattle.model_meaning.specs.Limits.{InLimits};
ghost use Rattle.model_items.specs.Lent.{lent_item};
ghost use Rattle.model_parts.specs.CoreWeight.{definitions_at, core_weight, IsTooHeavy};

use model_items::{Item, Items};
use model_meaning::Model;
use model_weight::weight;
use std::alloc::{AllocError, Global};

/// The greatest weight of a model whose parts are all lowered.
const MOST_WEIGHT: u128 = 67_108_864;

/// How much more than its weight an item may weigh in a part.
fn definitions_at(item: &Item<'_>) -> u128
    ensures { result ≡ definitions_at (lent_item item.now) }
{
    match item {
        Item::Declaration(_) => 0,
        Item::Statement(_) => 0,
        Item::Definition(_, _) => 1,
    }
}

/// The model's weight, and one for each `bool2int` that declares its integer: where that is left out, the integer
/// takes a variable of its own. No part of the model weighs more. A number that doesn't fit 128 bits would be given
/// as 2^128 - 1. It takes as long as `weight`.
pub fn core_weight(alloc: Global, model: &Model) -> Result<u128, AllocError>
    requires { InLimits model.now }
    ensures { IfOk result (λ weight. weight ≡ saturated (core_weight model.now)) }
{
    let mut heavy = weight(alloc, model)?;
    let mut left = Items::of(model.decls.as_slice(), model.stmts.as_slice());
    while let Some(item) = left.next_item() {
        heavy = heavy.saturating_add(definitions_at(&item));
    }
    Ok(heavy)
}

/// The greatest weight of a part of a model, where it is too great to be lowered. Of one past 128 bits, which a model
/// has that has 2^45 declarations, statements and members at least, there is no number to tell, and memory is wanting.
pub fn weight_above(alloc: Global, model: &Model) -> Result<Option<u128>, AllocError>
    requires { InLimits model.now }
    ensures { IfOk result (IsTooHeavy model.now) }
{
    let weight = core_weight(alloc, model)?;
    if weight == u128::MAX {
        return Err(AllocError);
    }
    if weight > MOST_WEIGHT {
        Ok(Some(weight))
    } else {
        Ok(None)
    }
}
