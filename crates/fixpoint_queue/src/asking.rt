//! One query after another, until the queue is empty.

ghost use Rattle.std.specs.Prelude.{ℕ, ◌≡◌, ◌⊎◌, ◌+◌, ◌<◌, ◌≤◌, [], true, false, length};
ghost use Rattle.std.specs.Prelude.{Some, IfOk, OnOk, OnErr};
ghost use Rattle.index_ring.specs.Lists.{times};
ghost use Rattle.core_forms.specs.declared.form.Core.{Core};
ghost use Rattle.core_forms.specs.declared.edges.Edge.{Edge};
ghost use Rattle.core_forms.specs.Edges.{IsKnown};
ghost use Rattle.core_forms.specs.WellFormed.{IsWellFormed};
ghost use Rattle.step_kernel.specs.Kernel.{Kernel, trimmed_at};
ghost use Rattle.step_kernel.specs.Settled.{IsSettled, WasSettled};
ghost use Rattle.fixpoint_queue.specs.Ledgers.{AddsEquations};
ghost use Rattle.fixpoint_queue.specs.Quiet.{IsClosed};
ghost use Rattle.fixpoint_queue.specs.Pairs.{IsCounted};
ghost use Rattle.fixpoint_queue.specs.Told.{IsTold, IsAnswer};
ghost use Rattle.fixpoint_queue.specs.Waits.{IsSaturation, left_to_do, left_to_ask};

use crate::oracle::Oracle;
use crate::taking::{take_equation, take_run};
use crate::worklist::Worklist;
use core_forms::{Core, Known};
use core_rules::FoundRun;
use ledger_text::Line;
use rule_base::Steps;
use std::alloc::{AllocError, Global};
use std::sync::ledger::Ledger;
use step_kernel::{State, is_compound};

/// What a core was found to tell.
#[derive(Drop)]
enum Answer {
    /// An equation, and those that are told in turn.
    Told(FoundRun),
    /// Nothing, and whether the core is compound.
    Silent(bool),
}

/// Asks a core that stands here as the store has it.
fn ask_core<F: Oracle<L>, L: Ledger>(
    alloc: Global,
    oracle: F,
    core: &Core,
    known: Known,
    steps: &mut Steps<L>,
) -> Result<Answer, AllocError>
    requires formed { IsWellFormed core.now }
    requires known { IsKnown known core.now }
    ensures answer { IfOk result (λ answer. IsAnswer F.told core.now answer) }
    ensures most { steps.new ≤ steps.old + 3 }
{
    match oracle.ask(alloc, core, known, steps)? {
        Some(found) => Ok(Answer::Told(found)),
        None => Ok(Answer::Silent(is_compound(core))),
    }
}

/// Asks a pending core whose edge is settled.
fn ask_settled<F: Oracle<L>, L: Ledger>(
    alloc: Global,
    oracle: F,
    state: &State,
    steps: &mut Steps<L>,
    id: u64,
) -> Result<Answer, AllocError>
    requires { (edge : Edge) × WasSettled state.now id edge }
    ensures answer { IfOk result (λ answer. (k : Kernel) (edge : Edge) → IsSettled k state.now id edge
        → (core : Core) × (trimmed_at k id ≡ Some core) × IsAnswer F.told core answer) }
    ensures most { steps.new ≤ steps.old + 3 }
{
    match state.core(id) {
        Some(core) => ask_core(alloc, oracle, core, core.known(), steps),
        None => Err(AllocError),
    }
}

/// Asks a pending core: the core itself where its members are stable, and else a copy that is trimmed.
fn ask_pending<F: Oracle<L>, L: Ledger>(
    alloc: Global,
    oracle: F,
    state: &mut State,
    steps: &mut Steps<L>,
    id: u32,
) -> Result<Answer, AllocError>
    ensures answer { IfOk result (λ answer.
        (core : Core) × (trimmed_at state.old id ≡ Some core) × IsAnswer F.told core answer) }
    ensures most { steps.new ≤ steps.old + 3 }
    ensures stays { state.new ≡ state.old }
{
    if let Some(edge) = state.settle(u64::from(id))? {
        let answer = ask_settled(alloc, oracle, state, steps, u64::from(id));
        state.unsettle(u64::from(id), edge);
        return answer;
    }
    match state.trimmed(alloc, u64::from(id))? {
        Some(copy) => ask_core(alloc, oracle, &copy, Known::Nothing, steps),
        None => Err(AllocError),
    }
}

/// Takes the equations that a core tells one after another, and where all of these were made before, the one that was
/// found. The clauses name the core, as the store has it, which no code holds.
fn take_found<F: Oracle<L>, L: Ledger>(
    state: &mut State,
    work: &mut Worklist,
    ledger: &mut Vec<Line>,
    id: u32,
    found: &FoundRun,
) -> Result<(), AllocError>
    ghost core: { Core }
    requires saturation { IsSaturation F.told state.old work.old.occurs work.old.queue work.old.marks }
    requires running { state.old.bottom ≡ false }
    requires first { 1 ≤ times id work.old.queue.queued }
    requires there { trimmed_at state.old id ≡ Some core }
    requires told { IsTold F.told core found.now }
    ensures saturation { IsSaturation F.told state.new work.new.occurs work.new.queue work.new.marks }
    ensures adds { AddsEquations F.told ledger.old.items state.old ledger.new.items state.new }
    ensures counted { OnOk result ((counter now : ℕ) → now ≤ counter + 3
        → IsCounted state.old ledger.old.items ledger.new.items
        (length work.old.queue.queued) counter now (left_to_ask state.new work.new.queue)) }
    ensures refused { OnErr result ((counter now : ℕ) → now ≤ counter + 3
        → IsCounted state.old ledger.old.items ledger.new.items (length work.old.queue.queued) counter now 0) }
    ensures less { OnOk result (left_to_do state.new work.new.queue < left_to_do state.old work.old.queue) }
{
    ledger.reserve(1 + found.run.len())?;
    let some = take_run::<F, L>(state, work, ledger, id, found.run.as_slice());
    if some {
        return Ok(());
    }
    take_equation(state, work, ledger, u64::from(id), found.equation);
    Ok(())
}

/// Asks the first core of the queue: where it tells an equation, that is taken, with those that it tells one after
/// another; and else the core leaves the queue.
fn ask_first<F: Oracle<L>, L: Ledger>(
    oracle: F,
    state: &mut State,
    work: &mut Worklist,
    ledger: &mut Vec<Line>,
    steps: &mut Steps<L>,
    id: u32,
) -> Result<(), AllocError>
    requires saturation { IsSaturation F.told state.old work.old.occurs work.old.queue work.old.marks }
    requires running { state.old.bottom ≡ false }
    requires first { 1 ≤ times id work.old.queue.queued }
    ensures saturation { IsSaturation F.told state.new work.new.occurs work.new.queue work.new.marks }
    ensures adds { AddsEquations F.told ledger.old.items state.old ledger.new.items state.new }
    ensures counted { OnOk result (IsCounted state.old ledger.old.items ledger.new.items
        (length work.old.queue.queued) steps.old steps.new (left_to_ask state.new work.new.queue)) }
    ensures refused { OnErr result (IsCounted state.old ledger.old.items ledger.new.items
        (length work.old.queue.queued) steps.old steps.new 0) }
    ensures less { OnOk result (left_to_do state.new work.new.queue < left_to_do state.old work.old.queue) }
{
    let alloc = *ledger.allocator();
    match ask_pending(alloc, oracle, state, steps, id)? {
        Answer::Told(found) => take_found::<F, L>(state, work, ledger, id, &found),
        Answer::Silent(compound) => {
            work.queue.take(id);
            work.marks.set(id, compound);
            Ok(())
        }
    }
}

/// Asks the cores of the queue, one after another, until the queue is empty or a contradiction was found. Each
/// is asked until it tells nothing.
pub fn ask_all<F: Oracle<L>, L: Ledger>(
    oracle: F,
    state: &mut State,
    work: &mut Worklist,
    ledger: &mut Vec<Line>,
    steps: &mut Steps<L>,
) -> Result<(), AllocError>
    requires saturation { IsSaturation F.told state.old work.old.occurs work.old.queue work.old.marks }
    ensures saturation { IsSaturation F.told state.new work.new.occurs work.new.queue work.new.marks }
    ensures adds { AddsEquations F.told ledger.old.items state.old ledger.new.items state.new }
    ensures counted { IsCounted state.old ledger.old.items ledger.new.items
        (length work.old.queue.queued) steps.old steps.new 0 }
    ensures empty { OnOk result (state.new.bottom ≡ true ⊎ work.new.queue.queued ≡ []) }
    ensures closed { OnOk result (state.new.bottom ≡ true ⊎ IsClosed F.told state.new) }
{
    while !state.bottom() {
        match work.queue.first() {
            Some(id) => ask_first(oracle, state, work, ledger, steps, id)?,
            None => return Ok(()),
        }
    }
    Ok(())
}
