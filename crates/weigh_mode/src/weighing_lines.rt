//! The lines that tell a weight and the heaviest items.

ghost use Rattle.std.specs.Prelude.{◌≡◌, ◌++◌, ◌∷◌, [], map, OnOk};
ghost use Rattle.bee_text.specs.Lines.{join_lines};
ghost use Rattle.weigh_mode.specs.WeighingText.{percent_of, weight_line, item_line};

use crate::heaviest::WeighedItem;
use bee_text::{end_line, push_blank, push_bytes, push_number};
use std::alloc::AllocError;

/// The share of a total in whole percent, rounded down.
fn percent(weight: u128, total: u128) -> u128
    ensures { result ≡ percent_of total weight }
{
    if total == 0 {
        0
    } else {
        weight.saturating_mul(100) / total
    }
}

/// Writes the line of the weight, and its line feed.
pub(crate) fn push_weight(out: &mut Vec<u8>, total: u128) -> Result<(), AllocError>
    ensures { OnOk result (out.new.items ≡ out.old.items ++ weight_line total ++ 10 ∷ []) }
{
    push_bytes(out, b"weight ")?;
    push_number(out, total)?;
    push_bytes(out, b" of 67108864")?;
    end_line(out)
}

/// Writes the line of an item, and its line feed.
fn push_item(out: &mut Vec<u8>, total: u128, item: WeighedItem) -> Result<(), AllocError>
    ensures { OnOk result (out.new.items ≡ out.old.items ++ item_line total item ++ 10 ∷ []) }
{
    push_bytes(out, b"item ")?;
    push_number(out, u128::from(item.number))?;
    push_blank(out)?;
    push_number(out, item.weight)?;
    push_blank(out)?;
    push_number(out, percent(item.weight, total))?;
    push_bytes(out, b"%")?;
    end_line(out)
}

/// Writes the lines of some items.
pub(crate) fn push_items(
    out: &mut Vec<u8>,
    total: u128,
    items: &[WeighedItem],
) -> Result<(), AllocError>
    ensures { OnOk result (out.new.items ≡ out.old.items ++ join_lines (map (item_line total) items.now)) }
{
    let mut rest = items;
    while let [first, others @ ..] = rest {
        push_item(out, total, *first)?;
        rest = others;
    }
    Ok(())
}
