//! The model of a file.

ghost use Rattle.std.specs.Prelude.{◌≡◌, ◌≤◌, IfOk};
ghost use Rattle.opb_model.specs.Models.{goal_of, opb_model};

use crate::declarations::declarations;
use crate::statements::statements;
use bee_list::Sequence;
use model_meaning::{Goal, Model};
use opb_front::{Objective, Opb};
use std::alloc::{AllocError, Global};

/// What is sought.
fn goal_of(vars: u32, objective: &Option<Objective>) -> Goal
    ensures { result ≡ goal_of vars objective.now }
{
    match objective {
        Some(_) => Goal::Minimize(vars as usize, None),
        None => Goal::Satisfy,
    }
}

/// The model of a file. It takes memory for its declarations, one for each index up to the greatest, and for its terms.
pub fn opb_model(alloc: Global, opb: &Opb) -> Result<Model, AllocError>
    requires { opb.now.vars ≤ 1000000 }
    ensures model { IfOk result (λ model. model ≡ opb_model opb.now) }
{
    let decls = declarations(alloc, opb.vars, &opb.objective)?;
    let stmts = statements(alloc, opb.vars, &opb.objective, opb.constraints.as_slice())?;
    Ok(Model {
        decls: Sequence::from_vec(decls),
        stmts: Sequence::from_vec(stmts),
        goal: goal_of(opb.vars, &opb.objective),
    })
}
