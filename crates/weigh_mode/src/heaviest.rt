//! The heaviest items of a model, on one walk along them.

ghost use Rattle.std.specs.Prelude.{◌≡◌, ◌<◌, ◌≤◌, ◌^◌, length, take, IfOk, OnOk};
ghost use Rattle.model_meaning.specs.Limits.{DeclsInLimit, InLimits};
ghost use Rattle.model_items.specs.Lent.{lent_item};
ghost use Rattle.model_items.specs.ItemLimits.{ItemInLimit};
ghost use Rattle.model_weight.specs.Weight.{weight_of_item, weight_of};
ghost use Rattle.weigh_mode.specs.Heaviest.{number_of, weighed_item, heaviest_items};
ghost use Rattle.weigh_mode.specs.Kept.{place_of, put_behind};

use model_items::{Item, Items};
use model_meaning::{Decl, Model};
use model_weight::item_weight;
use std::alloc::{AllocError, Global};

/// How many items are kept.
const MOST_ITEMS: usize = 10;

/// An item of a model with its weight.
#[derive(Clone, Copy, PartialEq, Eq)]
pub struct WeighedItem {
    /// Its number in the text, from 1.
    pub number: u64,
    /// What it weighs.
    pub weight: u128,
}

/// The number of an item.
fn number_of(item: &Item<'_>) -> u64
    ensures { result ≡ number_of (lent_item item.now) }
{
    match item {
        Item::Declaration(decl) => decl.number,
        Item::Statement(stmt) => stmt.number,
        Item::Definition(decl, _) => decl.number,
    }
}

/// An item with its weight.
fn weighed(alloc: Global, decls: &[Decl], item: &Item<'_>) -> Result<WeighedItem, AllocError>
    requires decls { DeclsInLimit decls.now }
    requires item { ItemInLimit (lent_item item.now) }
    requires fits { weight_of_item decls.now (lent_item item.now) < 2 ^ 128 }
    ensures { IfOk result (λ weighed. weighed ≡ weighed_item decls.now (lent_item item.now)) }
{
    let weight = item_weight(alloc, decls, item)?;
    Ok(WeighedItem {
        number: number_of(item),
        weight,
    })
}

/// How many of the items that are kept are as heavy as this weight, those in front.
fn place_of(kept: &[WeighedItem], weight: u128) -> usize
    ensures place { result ≡ place_of weight kept.now }
    ensures within { result ≤ length kept.now }
{
    let mut place = 0;
    let mut rest = kept;
    while let [first, others @ ..] = rest {
        if first.weight < weight {
            return place;
        }
        place += 1;
        rest = others;
    }
    place
}

/// Puts an item behind those that are as heavy, and lets go what is then behind the tenth.
fn keep(kept: &mut Vec<WeighedItem>, item: WeighedItem) -> Result<(), AllocError>
    ensures { OnOk result (kept.new.items ≡ take 10 (put_behind item kept.old.items)) }
{
    let place = place_of(kept.as_slice(), item.weight);
    kept.insert(place, item)?;
    kept.truncate(MOST_ITEMS);
    Ok(())
}

/// The ten heaviest items of a model.
pub(crate) fn heaviest_items(alloc: Global, model: &Model) -> Result<Vec<WeighedItem>, AllocError>
    requires limits { InLimits model.now }
    requires fits { weight_of model.now < 2 ^ 128 }
    ensures { IfOk result (λ kept. kept.items ≡ heaviest_items model.now) }
{
    let decls = model.decls.as_slice();
    let mut kept = Vec::with_capacity(alloc, MOST_ITEMS + 1)?;
    let mut left = Items::of(decls, model.stmts.as_slice());
    while let Some(item) = left.next_item() {
        keep(&mut kept, weighed(alloc, decls, &item)?)?;
    }
    Ok(kept)
}
