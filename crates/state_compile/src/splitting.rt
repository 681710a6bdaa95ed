//! Splits, of the least compound core each, until no core is compound.

ghost use Rattle.std.specs.Prelude.{◌≡◌, ◌⊎◌, ◌<◌, [], true, false, length, None, Some, OnOk};
ghost use Rattle.step_kernel.specs.Kernel.{IsKernel};
ghost use Rattle.step_kernel.specs.Least.{least_compound_of};
ghost use Rattle.fixpoint_queue.specs.Quiet.{IsClosed};
ghost use Rattle.asking_bound.specs.Questions.{IsAsked};
ghost use Rattle.state_compile.specs.Compilation.{AddsInOrder};
ghost use Rattle.state_compile.specs.Size.{left_to_split};

use fixpoint_queue::{Oracle, Runner};
use rule_base::Steps;
use std::alloc::AllocError;
use std::sync::ledger::Ledger;

/// Splits the least compound core, and saturates.
fn split_least<F: Oracle<L>, L: Ledger>(
    runner: &mut Runner<F, L>,
    steps: &mut Steps<L>,
    id: u64,
) -> Result<(), AllocError>
    requires kernel { IsKernel runner.old.kernel }
    requires running { runner.old.kernel.bottom ≡ false }
    requires closed { IsClosed F.told runner.old.kernel }
    requires least { least_compound_of runner.old.kernel ≡ Some id }
    requires none { runner.old.queued ≡ [] }
    ensures adds { OnOk result
        (AddsInOrder F.told runner.old.ledger runner.old.kernel runner.new.ledger runner.new.kernel) }
    ensures kernel { OnOk result (IsKernel runner.new.kernel) }
    ensures empty { OnOk result (runner.new.kernel.bottom ≡ true ⊎ runner.new.queued ≡ []) }
    ensures closed { OnOk result (runner.new.kernel.bottom ≡ true ⊎ IsClosed F.told runner.new.kernel) }
    ensures smaller { OnOk result (left_to_split runner.new.kernel < left_to_split runner.old.kernel) }
    ensures asked { OnOk result
        (IsAsked runner.old.kernel runner.old.ledger runner.new.ledger 0 steps.old steps.new 0) }
{
    runner.split(id)?;
    runner.saturate(steps)?;
    Ok(())
}

/// Saturates, and splits the least compound core while there is one, saturating after each split. It stops
/// where a contradiction is found.
pub fn split_all<F: Oracle<L>, L: Ledger>(
    runner: &mut Runner<F, L>,
    steps: &mut Steps<L>,
) -> Result<(), AllocError>
    ensures adds { OnOk result
        (AddsInOrder F.told runner.old.ledger runner.old.kernel runner.new.ledger runner.new.kernel) }
    ensures closed { OnOk result (runner.new.kernel.bottom ≡ true ⊎ IsClosed F.told runner.new.kernel) }
    ensures none { OnOk result
        (runner.new.kernel.bottom ≡ true ⊎ least_compound_of runner.new.kernel ≡ None) }
    ensures asked { OnOk result (IsAsked runner.old.kernel runner.old.ledger runner.new.ledger
        (length runner.old.queued) steps.old steps.new 0) }
{
    runner.saturate(steps)?;
    while !runner.state().bottom() {
        match runner.least_compound() {
            Some(id) => split_least(runner, steps, id)?,
            None => return Ok(()),
        }
    }
    Ok(())
}
