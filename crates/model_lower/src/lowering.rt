//! From a typed model to cores and a map of names.

ghost use Rattle.std.specs.Prelude.{◌≡◌, ◌↔◌, ◌<◌, ◌≤◌, ◌^◌, ℤ, List, IfOk, IfErr, OnOk};
ghost use Rattle.model_meaning.specs.WellTyped.{WellTyped};
ghost use Rattle.model_meaning.specs.Limits.{InLimits};
ghost use Rattle.model_meaning.specs.Solutions.{IsSolution};
ghost use Rattle.statement_lower.specs.Entries.{AreInLimit};
ghost use Rattle.model_items.specs.ItemLimits.{ItemInLimit};
ghost use Rattle.model_items.specs.Lent.{lent_item};
ghost use Rattle.model_weight.specs.Weight.{weight_of};
ghost use Rattle.model_lower.specs.Weighed.{most_weight};
ghost use Rattle.model_lower.specs.Faults.{IsFaultOf};
ghost use Rattle.model_lower.specs.Lowering.{lowered_item, lowered_of};
ghost use Rattle.model_lower.specs.Drafting.{lowered_so_far};
ghost use Rattle.model_lower.specs.Decoded.{IsDecoded};
ghost use Rattle.model_lower.specs.Fits.{Fits};

use crate::declarations::{add_declaration, add_definition};
use crate::draft::Draft;
use crate::fault::LowerFault;
use crate::state::Lowered;
use crate::statements::add_statement;
use crate::weighing::weigh;
use model_items::{Item, Items};
use model_meaning::Model;
use std::alloc::{AllocError, Global};

/// Adds an item.
fn add_item(alloc: Global, draft: &mut Draft, item: &Item<'_>) -> Result<(), AllocError>
    requires entries { AreInLimit draft.old.entries.items }
    requires limit { ItemInLimit (lent_item item.now) }
    requires room { (lowered_item (lowered_so_far draft.old) (lent_item item.now)).vars < 2 ^ 27 }
    ensures { OnOk result (lowered_so_far draft.new ≡ lowered_item (lowered_so_far draft.old) (lent_item item.now)) }
{
    match item {
        Item::Declaration(decl) => add_declaration(alloc, draft, decl),
        Item::Statement(stmt) => add_statement(alloc, draft, stmt),
        Item::Definition(_, stmt) => add_definition(alloc, draft, stmt),
    }
}

/// Lowers a model's items in the order of their numbers.
fn lower_items(alloc: Global, model: &Model) -> Result<Lowered, AllocError>
    requires limits { InLimits model.now }
    requires room { (lowered_of model.now).vars < 2 ^ 27 }
    ensures { IfOk result (λ l. l ≡ lowered_of model.now) }
{
    let mut draft = Draft::new(alloc);
    let mut left = Items::of(model.decls.as_slice(), model.stmts.as_slice());
    while let Some(item) = left.next_item() {
        add_item(alloc, &mut draft, &item)?;
    }
    Ok(draft.finish())
}

/// The cores and the map of names of a model that is lent. A model that weighs more than 67,108,864 is refused before
/// any core is made; else it takes time linear in the weight, but for a sort of the members of some statements.
pub fn lower(alloc: Global, model: &Model) -> Result<Lowered, LowerFault>
    requires typed { WellTyped model.now }
    requires limits { InLimits model.now }
    ensures light { IfOk result (λ l. weight_of model.now ≤ most_weight) }
    ensures heavy { IfErr result (λ e. IsFaultOf e model.now) }
    ensures shape { IfOk result (λ l. l ≡ lowered_of model.now) }
    ensures solutions { IfOk result (λ l. (a : List ℤ) → IsSolution model.now a ↔ IsDecoded l a) }
    ensures fits { IfOk result (λ l. Fits l model.now.decls) }
{
    weigh(alloc, model)?;
    Ok(lower_items(alloc, model)?)
}
