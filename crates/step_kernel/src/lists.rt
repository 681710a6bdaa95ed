//! Cores as pending ones.

ghost use Rattle.std.specs.Prelude.{◌≡◌, map, Some, IfOk};

use core_forms::Core;
use std::alloc::{AllocError, Global};

/// Each core, pending.
pub fn all_pending(alloc: Global, cores: Vec<Core>) -> Result<Vec<Option<Core>>, AllocError>
    ensures { IfOk result (λ pending. pending.items ≡ map Some cores.items) }
{
    let mut pending = Vec::with_capacity(alloc, cores.len())?;
    for core in cores {
        pending.push(Some(core))?;
    }
    Ok(pending)
}
