//! The model.

ghost use Rattle.std.specs.Prelude.{◌≡◌, ◌≤◌, IfOk};
ghost use Rattle.model_meaning.specs.WellTyped.{WellTyped};
ghost use Rattle.model_meaning.specs.Limits.{InLimits};
ghost use Rattle.model_weight.specs.Weight.{weight_of};
ghost use Rattle.model_lower.specs.Weighed.{most_weight};
ghost use Rattle.queens_model.specs.Queens.{queens};

use crate::integers::integers;
use crate::statements::statements;
use bee_list::Sequence;
use model_meaning::{Goal, Model};
use std::alloc::{AllocError, Global};

/// The model, as its definition has it.
fn model(alloc: Global, size: u64) -> Result<Model, AllocError>
    requires { size ≤ 24 }
    ensures { IfOk result (λ m. m ≡ queens size) }
{
    Ok(Model {
        decls: Sequence::from_vec(integers(alloc, size)?),
        stmts: Sequence::from_vec(statements(alloc, size)?),
        goal: Goal::Satisfy,
    })
}

/// The model of so many queens. It has three integers and two statements for each row, and three statements more. It
/// takes memory for these alone.
pub fn queens(alloc: Global, size: u64) -> Result<Model, AllocError>
    requires least { 4 ≤ size }
    requires most { size ≤ 24 }
    ensures model { IfOk result (λ m. m ≡ queens size) }
    ensures typed { IfOk result WellTyped }
    ensures limits { IfOk result InLimits }
    ensures light { IfOk result (λ m. weight_of m ≤ most_weight) }
{
    let model = model(alloc, size)?;
    Ok(model)
}
