//! What the model of a file declares.

ghost use Rattle.std.specs.Prelude.{◌≡◌, ◌≤◌, ◌+◌, ◌++◌, IfOk, OnOk};
ghost use Rattle.opb_model.specs.Models.{variable_name, variable, variables_from, cost_decls};

use crate::text_parts::push_variable_name;
use bumblebee_reader::Name;
use model_meaning::{Decl, Kind};
use opb_front::Objective;
use std::alloc::{AllocError, Global};

/// The name of a variable. `room` is where it is made; what stood there goes.
fn variable_name(alloc: Global, room: &mut Vec<u8>, index: u32) -> Result<Name, AllocError>
    ensures { IfOk result (λ name. name ≡ variable_name index) }
{
    room.clear();
    push_variable_name(room, index)?;
    Name::from_slice(alloc, room.as_slice())
}

/// The variable of an index.
fn variable(alloc: Global, room: &mut Vec<u8>, index: u32) -> Result<Decl, AllocError>
    ensures { IfOk result (λ decl. decl ≡ variable index) }
{
    let name = variable_name(alloc, room, index)?;
    Ok(Decl {
        number: u64::from(index),
        name,
        kind: Kind::Bool,
    })
}

/// The variables, and room for one declaration more.
fn variables(alloc: Global, vars: u32) -> Result<Vec<Decl>, AllocError>
    requires { vars ≤ 1000000 }
    ensures { IfOk result (λ decls. decls.items ≡ variables_from 1 vars) }
{
    let mut room = Vec::new(alloc);
    let mut decls = Vec::with_capacity(alloc, vars as usize + 1)?;
    for before in 0..vars {
        let decl = variable(alloc, &mut room, before + 1)?;
        decls.push(decl)?;
    }
    Ok(decls)
}

/// Adds the cost, where there is an objective.
fn push_cost(
    alloc: Global,
    decls: &mut Vec<Decl>,
    number: u64,
    objective: &Option<Objective>,
) -> Result<(), AllocError>
    ensures { OnOk result (decls.new.items ≡ decls.old.items ++ cost_decls number objective.now) }
{
    if let Some(sought) = objective {
        let name = Name::from_slice(alloc, b"o")?;
        decls.push(Decl {
            number,
            name,
            kind: Kind::Range {
                low: sought.low,
                high: sought.high,
            },
        })?;
    }
    Ok(())
}

/// The declarations of a file's model.
pub(crate) fn declarations(
    alloc: Global,
    vars: u32,
    objective: &Option<Objective>,
) -> Result<Vec<Decl>, AllocError>
    requires { vars ≤ 1000000 }
    ensures { IfOk result (λ decls.
        decls.items ≡ variables_from 1 vars ++ cost_decls (vars + 1) objective.now) }
{
    let mut decls = variables(alloc, vars)?;
    push_cost(alloc, &mut decls, u64::from(vars) + 1, objective)?;
    Ok(decls)
}
