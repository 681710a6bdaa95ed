//! The cores of statements, added to those so far.

ghost use Rattle.std.specs.Prelude.{◌≡◌, ◌<◌, ◌^◌, OnOk};
ghost use Rattle.model_meaning.specs.Limits.{WhatInLimit};
ghost use Rattle.statement_lower.specs.Entries.{AreInLimit};
ghost use Rattle.statement_lower.specs.Lines.{made_of};
ghost use Rattle.model_lower.specs.Lowering.{with_statement};
ghost use Rattle.model_lower.specs.Drafting.{lowered_so_far};

use crate::draft::Draft;
use model_meaning::Stmt;
use statement_lower::made_of;
use std::alloc::{AllocError, Global};

/// Adds a statement.
pub fn add_statement(alloc: Global, draft: &mut Draft, stmt: &Stmt) -> Result<(), AllocError>
    requires entries { AreInLimit draft.old.entries.items }
    requires limit { WhatInLimit stmt.now.what }
    requires room { (made_of draft.old.vars draft.old.entries.items stmt.now.what).vars < 2 ^ 27 }
    ensures { OnOk result (lowered_so_far draft.new ≡ with_statement (lowered_so_far draft.old) stmt.now.what) }
{
    let made = made_of(alloc, draft.entries.as_slice(), draft.vars, &stmt.what)?;
    let mut cores = made.cores.into_vec();
    draft.cores.append(&mut cores)?;
    draft.vars = made.vars;
    Ok(())
}
