//! Encodings, by the ids upwards, until no core is pending.

ghost use Rattle.std.specs.Prelude.{◌≡◌, ◌⊎◌, true, None, OnOk};
ghost use Rattle.step_kernel.specs.Kernel.{IsKernel};
ghost use Rattle.step_kernel.specs.Least.{least_compound_of};
ghost use Rattle.fixpoint_queue.specs.Quiet.{IsClosed};
ghost use Rattle.state_compile.specs.Compilation.{AddsInOrder, IsAtEnd};

use fixpoint_queue::{Oracle, Runner};
use std::alloc::AllocError;
use std::sync::ledger::Ledger;

/// Encodes the pending cores, none of which is compound, the least id first. At bottom there is nothing to do.
pub fn encode_all<F: Oracle<L>, L: Ledger>(runner: &mut Runner<F, L>) -> Result<(), AllocError>
    requires closed { runner.old.kernel.bottom ≡ true ⊎ IsClosed F.told runner.old.kernel }
    requires none { runner.old.kernel.bottom ≡ true ⊎ least_compound_of runner.old.kernel ≡ None }
    ensures adds { OnOk result
        (AddsInOrder F.told runner.old.ledger runner.old.kernel runner.new.ledger runner.new.kernel) }
    ensures kernel { OnOk result (IsKernel runner.new.kernel) }
    ensures end { OnOk result (IsAtEnd runner.new.kernel) }
{
    if runner.state().bottom() {
        return Ok(());
    }
    while let Some(id) = runner.state().least() {
        runner.encode(id)?;
    }
    Ok(())
}
