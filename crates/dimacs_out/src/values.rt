//! Writing the values of declared names.

ghost use Rattle.std.specs.Prelude.{◌≡◌, ◌++◌, ◌∷◌, [], map, IfOk, OnOk};
ghost use Rattle.bee_text.specs.Lines.{join_lines};
ghost use Rattle.order_ints.specs.Truth.{valuation_of};
ghost use Rattle.order_ints.specs.Numbers.{number_of};
ghost use Rattle.name_map.specs.Values.{values_of, IsBoundedValue, AreBounded};
ghost use Rattle.dimacs_out.specs.ValueLines.{number_line, values_text};

use bee_text::end_line;
use name_map::{MapEntry, is_boolean, number_under, push_value_line};
use std::alloc::{AllocError, Global};

/// Writes the line of a name, and its line feed.
fn push_number_line(out: &mut Vec<u8>, entry: &MapEntry, values: &[bool]) -> Result<(), AllocError>
    requires { IsBoundedValue entry.now.value }
    ensures { OnOk result (out.new.items ≡ out.old.items
        ++ number_line entry.now (number_of (valuation_of values.now) entry.now.value) ++ 10 ∷ []) }
{
    let number = number_under(&entry.value, values);
    push_value_line(out, entry.name.as_bytes(), is_boolean(&entry.value), number)?;
    end_line(out)
}

/// The lines `NAME = VALUE` of declared names under values, of which that of variable 1 stands first. One pass over
/// the names and their steps.
pub fn write_values(
    alloc: Global,
    entries: &[MapEntry],
    values: &[bool],
) -> Result<Vec<u8>, AllocError>
    requires { AreBounded (values_of entries.now) }
    ensures { IfOk result (λ text. text.items ≡ values_text (valuation_of values.now) entries.now) }
{
    let mut out = Vec::new(alloc);
    for entry in entries {
        push_number_line(&mut out, entry, values)?;
    }
    Ok(out)
}
