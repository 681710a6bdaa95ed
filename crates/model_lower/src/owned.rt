//! From a typed model that is used up to cores and a map of names.

ghost use Rattle.std.specs.Prelude.{◌≡◌, ◌↔◌, ◌<◌, ◌≤◌, ◌^◌, ℤ, List, length, reverse};
ghost use Rattle.std.specs.Prelude.{IfOk, IfErr, OnOk};
ghost use Rattle.model_meaning.specs.WellTyped.{WellTyped};
ghost use Rattle.model_meaning.specs.Limits.{WhatInLimit, DeclsInLimit, StmtsInLimit, InLimits};
ghost use Rattle.model_meaning.specs.Solutions.{IsSolution};
ghost use Rattle.statement_lower.specs.Entries.{AreInLimit};
ghost use Rattle.model_items.specs.Items.{declared_item, behind_declared, items_of};
ghost use Rattle.model_weight.specs.Weight.{weight_of};
ghost use Rattle.model_lower.specs.Weighed.{most_weight};
ghost use Rattle.model_lower.specs.Faults.{IsFaultOf};
ghost use Rattle.model_lower.specs.Lowering.{with_statement, lowered_item, lowered_items, nothing_lowered, lowered_of};
ghost use Rattle.model_lower.specs.Drafting.{lowered_so_far};
ghost use Rattle.model_lower.specs.Decoded.{IsDecoded};
ghost use Rattle.model_lower.specs.Fits.{Fits};

use crate::declarations::{add_declaration, add_definition};
use crate::draft::Draft;
use crate::fault::LowerFault;
use crate::state::{Lowered, LoweredModel};
use crate::statements::add_statement;
use crate::statements_left::{defining_statement, next_statement};
use crate::weighing::weigh;
use model_meaning::{Decl, Model, Stmt};
use std::alloc::{AllocError, Global};

/// Adds a statement, which is let go.
fn take_statement(alloc: Global, draft: &mut Draft, stmt: Stmt) -> Result<(), AllocError>
    requires entries { AreInLimit draft.old.entries.items }
    requires limit { WhatInLimit stmt.what }
    requires room { (with_statement (lowered_so_far draft.old) stmt.what).vars < 2 ^ 27 }
    ensures { OnOk result (lowered_so_far draft.new ≡ with_statement (lowered_so_far draft.old) stmt.what) }
{
    add_statement(alloc, draft, &stmt)
}

/// Adds a declaration, and with it the next statement, the last one of `left`, where that declares its integer.
fn add_declared(
    alloc: Global,
    draft: &mut Draft,
    decl: &Decl,
    left: &mut Vec<Stmt>,
) -> Result<(), AllocError>
    requires room { (lowered_item (lowered_so_far draft.old) (declared_item decl.now (reverse left.old.items))).vars
        < 2 ^ 27 }
    ensures lowered { OnOk result (lowered_so_far draft.new
        ≡ lowered_item (lowered_so_far draft.old) (declared_item decl.now (reverse left.old.items))) }
    ensures left { OnOk result (reverse left.new.items ≡ behind_declared decl.now (reverse left.old.items)) }
    ensures shorter { OnOk result (length left.new.items ≤ length left.old.items) }
{
    match defining_statement(decl, left) {
        Some(stmt) => add_definition(alloc, draft, &stmt),
        None => add_declaration(alloc, draft, decl),
    }
}

/// Lowers declarations and statements in the order of their numbers. Each statement is let go when it is lowered.
fn lower_each(alloc: Global, decls: &[Decl], stmts: Vec<Stmt>) -> Result<Lowered, AllocError>
    requires decls { DeclsInLimit decls.now }
    requires stmts { StmtsInLimit stmts.items }
    requires room { (lowered_items nothing_lowered (items_of decls.now stmts.items)).vars < 2 ^ 27 }
    ensures { IfOk result (λ l. l ≡ lowered_items nothing_lowered (items_of decls.now stmts.items)) }
{
    let mut left = stmts;
    left.reverse();
    let mut rest = decls;
    let mut draft = Draft::new(alloc);
    loop {
        if let Some(stmt) = next_statement(rest, &mut left) {
            take_statement(alloc, &mut draft, stmt)?;
        } else if let Some((decl, others)) = rest.split_first() {
            add_declared(alloc, &mut draft, decl, &mut left)?;
            rest = others;
        } else {
            return Ok(draft.finish());
        }
    }
}

/// The cores and the map of names of a model that is used up: each statement is let go as soon as it is lowered, and
/// the declarations are kept. It refuses what `lower` refuses, and takes as long.
pub fn lower_owned(alloc: Global, model: Model) -> Result<LoweredModel, LowerFault>
    requires typed { WellTyped model }
    requires limits { InLimits model }
    ensures light { IfOk result (λ m. weight_of model ≤ most_weight) }
    ensures heavy { IfErr result (λ e. IsFaultOf e model) }
    ensures decls { IfOk result (λ m. m.decls ≡ model.decls) }
    ensures shape { IfOk result (λ m. m.lowered ≡ lowered_of model) }
    ensures solutions { IfOk result (λ m. (a : List ℤ) → IsSolution model a ↔ IsDecoded m.lowered a) }
    ensures fits { IfOk result (λ m. Fits m.lowered model.decls) }
{
    weigh(alloc, &model)?;
    let Model {
        decls,
        stmts,
        goal: _,
    } = model;
    let lowered = lower_each(alloc, decls.as_slice(), stmts.into_vec())?;
    Ok(LoweredModel { lowered, decls })
}
