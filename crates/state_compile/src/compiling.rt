//! A compilation from a state to its end.

ghost use Rattle.std.specs.Prelude.{◌+◌, ◌*◌, ◌≤◌, IfOk};
ghost use Rattle.step_kernel.specs.Kernel.{IsKernel};
ghost use Rattle.fixpoint_queue.specs.Ledgers.{Leads};
ghost use Rattle.asking_bound.specs.Questions.{most_questions};
ghost use Rattle.state_compile.specs.StandsFor.{CnfStandsFor};
ghost use Rattle.state_compile.specs.Compilation.{IsCompilation};

use crate::compiled::CompiledState;
use crate::encoding::encode_all;
use crate::splitting::split_all;
use bee_list::Sequence;
use fixpoint_queue::{Oracle, Runner};
use rule_base::Steps;
use std::alloc::{AllocError, Global};
use std::sync::ledger::Ledger;
use step_kernel::State;

/// Compiles a state: adds equations until none is told, splits the least compound core while there is one,
/// adding equations after each split, and then encodes the cores, the least id first. It stops where a
/// contradiction is found. It fails for want of memory, and as if memory were wanting where there would be
/// 2^31 - 3 ids or more.
pub fn compile_state<F: Oracle<L>, L: Ledger>(
    alloc: Global,
    state: State,
    oracle: F,
    steps: &mut Steps<L>,
) -> Result<CompiledState, AllocError>
    ensures compilation { IfOk result (λ made. IsCompilation F.told state made.ledger made.state) }
    ensures leads { IfOk result (λ made. Leads F.told state made.ledger made.state) }

    // The valuations that satisfy the last CNF and meet the last store give exactly the first state's models.
    ensures models { IfOk result (λ made. CnfStandsFor state made.state) }
    ensures kernel { IfOk result (λ made. IsKernel made.state) }

    // Three counts at most for each core that was made, and for each new label that one of its variables can get.
    ensures asked { IfOk result
        (λ made. steps.new ≤ steps.old + 3 * most_questions state made.ledger made.state) }
{
    if state.bottom() {
        let ledger = Sequence::from_vec(Vec::new(alloc));
        return Ok(CompiledState { state, ledger });
    }
    let mut runner = Runner::with(alloc, state, oracle)?;
    split_all(&mut runner, steps)?;
    encode_all(&mut runner)?;
    let (state, ledger) = runner.finish();
    let ledger = Sequence::from_vec(ledger);
    Ok(CompiledState { state, ledger })
}
