//! The text of a file's model.

ghost use Rattle.std.specs.Prelude.{◌≡◌, ◌≤◌, ◌<◌, ◌++◌, length, IfOk, OnOk, MatchOption};
ghost use Rattle.std.specs.List.{flat_map};
ghost use Rattle.bumblebee_reader.specs.Canonical.{item_line};
ghost use Rattle.opb_model.specs.Items.{variable_items, constraint_items, opb_text};
ghost use Rattle.opb_model.specs.Written.{other_lines, IsWritten};

use crate::text_parts::{push_constraint, push_goal, push_objective, push_variable};
use opb_front::{Constraint, Opb};
use std::alloc::{AllocError, Global};

/// Appends the lines of the variables.
fn push_variables(out: &mut Vec<u8>, vars: u32) -> Result<(), AllocError>
    requires { vars ≤ 1000000 }
    ensures { OnOk result (out.new.items ≡ out.old.items ++ flat_map item_line (variable_items 1 vars)) }
{
    for before in 0..vars {
        push_variable(out, before + 1)?;
    }
    Ok(())
}

/// Appends the lines of the constraints, up to the first with which the text is longer than `most`. Whether all stand.
fn push_constraints(
    out: &mut Vec<u8>,
    constraints: &[Constraint],
    most: usize,
) -> Result<bool, AllocError>
    ensures { IfOk result (λ whole. IsWritten out.old.items
        (flat_map item_line (constraint_items constraints.now)) most out.new.items whole) }
{
    for constraint in constraints {
        push_constraint(out, constraint)?;
        if out.len() > most {
            return Ok(false);
        }
    }
    Ok(true)
}

/// Appends what stands behind the variables. Whether all of it stands.
fn push_others(out: &mut Vec<u8>, opb: &Opb, most: usize) -> Result<bool, AllocError>
    ensures { IfOk result (λ whole. IsWritten out.old.items (other_lines opb.now) most out.new.items whole) }
{
    push_objective(out, &opb.objective)?;
    if !push_constraints(out, opb.constraints.as_slice(), most)? {
        return Ok(false);
    }
    push_goal(out, &opb.objective)?;
    Ok(true)
}

/// The canonical text of a file's model, where it has no more than `most` bytes.
pub fn model_text(alloc: Global, opb: &Opb, most: usize) -> Result<Option<Vec<u8>>, AllocError>
    requires { opb.now.vars ≤ 1000000 }
    ensures text { IfOk result (λ text. MatchOption text (most < length (opb_text opb.now))
        (λ written. (written.items ≡ opb_text opb.now) × (length written.items ≤ most))) }
{
    let mut out = Vec::new(alloc);
    push_variables(&mut out, opb.vars)?;
    if push_others(&mut out, opb, most)? && out.len() <= most {
        Ok(Some(out))
    } else {
        Ok(None)
    }
}
