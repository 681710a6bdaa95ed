//! The weights of a model's items, in the order of their numbers.

ghost use Rattle.std.specs.Prelude.{◌≡◌, ◌<◌, ◌+◌, ◌^◌, length, IfOk};
ghost use Rattle.core_cost.specs.Saturated.{saturated};
ghost use Rattle.model_meaning.specs.Sizes.{members_of};
ghost use Rattle.model_meaning.specs.Limits.{DeclsInLimit, InLimits};
ghost use Rattle.model_items.specs.Lent.{lent_item};
ghost use Rattle.model_items.specs.ItemLimits.{ItemInLimit};
ghost use Rattle.model_weight.specs.Weight.{weight_of_declaration, weight_of_item, weight_of};

use crate::lines::statement_weight;
use crate::shapes::steps_of;
use core_cost::ladder_cost;
use model_items::{Item, Items};
use model_meaning::{Decl, Kind, Model};
use std::alloc::{AllocError, Global};

/// A declared name: its variables, and that an integer is ordered.
fn declaration_weight(kind: &Kind) -> u128
    ensures { result ≡ saturated (weight_of_declaration kind.now) }
{
    let steps = steps_of(kind);
    match kind {
        Kind::Bool => steps,
        Kind::Range { .. } | Kind::Listed { .. } => steps.saturating_add(ladder_cost(steps)),
    }
}

/// The weight of an item among declarations; it is 0 where its integer is its Boolean. A weight that does not fit 128
/// bits would be given as 2^128 - 1. It takes time linear in the item.
pub fn item_weight(alloc: Global, decls: &[Decl], item: &Item<'_>) -> Result<u128, AllocError>
    requires decls { DeclsInLimit decls.now }
    requires item { ItemInLimit (lent_item item.now) }
    ensures { IfOk result (λ weight. weight ≡ saturated (weight_of_item decls.now (lent_item item.now))) }
{
    match item {
        Item::Declaration(decl) => Ok(declaration_weight(&decl.kind)),
        Item::Statement(stmt) => statement_weight(alloc, decls, &stmt.what),
        Item::Definition(_, _) => Ok(0),
    }
}

/// The weights of all items together.
fn items_weight(alloc: Global, model: &Model) -> Result<u128, AllocError>
    requires { InLimits model.now }
    ensures { IfOk result (λ weight. weight ≡ saturated (weight_of model.now)) }
{
    let decls = model.decls.as_slice();
    let mut weight = 0u128;
    let mut left = Items::of(decls, model.stmts.as_slice());
    while let Some(item) = left.next_item() {
        weight = weight.saturating_add(item_weight(alloc, decls, &item)?);
    }
    Ok(weight)
}

/// The weight of a model: its variables, and the costs of the cores that it is lowered to, a fresh sum of a linear sum
/// with as many variables as its shape says. It is exact for the model of each text; a weight that does not fit 128
/// bits would be given as 2^128 - 1. No core is made; it takes time linear in the model, but for a sort of the members
/// of reified all-different.
pub fn weight(alloc: Global, model: &Model) -> Result<u128, AllocError>
    requires { InLimits model.now }
    ensures weight { IfOk result (λ weight. weight ≡ saturated (weight_of model.now)) }
    ensures exact { length model.now.decls + length model.now.stmts + members_of model.now.stmts < 2 ^ 45
        → IfOk result (λ weight. weight ≡ weight_of model.now) }
{
    items_weight(alloc, model)
}
