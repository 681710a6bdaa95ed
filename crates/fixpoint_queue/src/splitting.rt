//! Cores that are split.

ghost use Rattle.std.specs.Prelude.{◌≡◌, ◌⊎◌, ◌+◌, ◌-◌, ◌++◌, ◌∷◌, ◌<◌, ◌≤◌};
ghost use Rattle.std.specs.Prelude.{ℕ, [], true, false, length, Ok, IfOk, OnOk, OnErr, IsTrue};
ghost use Rattle.index_ring.specs.Lists.{times};
ghost use Rattle.ledger_text.specs.declared.line.Line.TheVariants.{Split};
ghost use Rattle.step_kernel.specs.Kernel.{trimmed_at, IsKernel};
ghost use Rattle.step_kernel.specs.Least.{is_compound_if};
ghost use Rattle.step_kernel.specs.SplitAt.{ArePartsAt, IsStableAt};
ghost use Rattle.step_kernel.specs.Steps.{step};
ghost use Rattle.fixpoint_queue.specs.Split.{IsSplit};
ghost use Rattle.fixpoint_queue.specs.Standing.{AreAllVars};

use crate::entering::all_variables;
use crate::handing::rest_of;
use crate::oracle::Oracle;
use crate::runner::Runner;
use bee_list::Sequence;
use ledger_text::Line;
use part_base::Parts;
use std::alloc::{AllocError, Global};
use std::sync::ledger::Ledger;
use step_kernel::State;

/// The parts of a core that is compound as the store has it. A core that is stable is lent, and not copied to be
/// trimmed.
fn parts_of_pending(
    alloc: Global,
    state: &State,
    id: u64,
    stable: bool,
) -> Result<Parts, AllocError>
    requires kernel { IsKernel state.now }
    requires compound { is_compound_if (trimmed_at state.now id) ≡ true }
    requires stable { IsTrue stable → IsStableAt state.now id }
    ensures { IfOk result (λ made. ArePartsAt state.now id made) }
{
    if stable {
        if let Some(core) = state.core(id) {
            return state.parts_of_lent(id, core);
        }
    }
    let Some(core) = state.trimmed(alloc, id)? else {
        return Err(AllocError);
    };
    state.parts_of(id, core)
}

/// The parts of a core that is compound as the store has it, and the variables of each.
fn parts_with_variables(
    alloc: Global,
    state: &State,
    id: u64,
    stable: bool,
) -> Result<(Parts, Vec<Sequence<u32>>), AllocError>
    requires kernel { IsKernel state.now }
    requires compound { is_compound_if (trimmed_at state.now id) ≡ true }
    requires stable { IsTrue stable → IsStableAt state.now id }
    ensures parts { IfOk result (λ made. ArePartsAt state.now id made.0) }
    ensures lists { IfOk result (λ made. AreAllVars made.1.items made.0.cores) }
{
    let parts = parts_of_pending(alloc, state, id, stable)?;
    let lists = all_variables(alloc, parts.cores.as_slice())?;
    Ok((parts, lists))
}

impl<F: Oracle<L>, L: Ledger> Runner<F, L> {
    /// Splits a core into its parts, each of which is made anew. It costs their size.
    fn split_whole(&mut self, id: u64, stable: bool) -> Result<(), AllocError>
        requires running { self.old.kernel.bottom ≡ false }
        requires compound { is_compound_if (trimmed_at self.old.kernel id) ≡ true }
        requires stable { IsTrue stable → IsStableAt self.old.kernel id }
        ensures split { OnOk result (IsSplit self.old self.new id) }
        ensures stays { OnErr result (self.new ≡ self.old) }
    {
        let alloc = *self.ledger.allocator();
        let (parts, lists) = parts_with_variables(alloc, &self.state, id, stable)?;
        let rest = rest_of(alloc, &self.state, id, lists.as_slice())?;
        let more = rest.come.len() as u32;
        self.work
            .make_room(&self.state, parts.fresh, more, lists.as_slice())?;
        self.ledger.reserve(1)?;
        let before = self.state.ids() as u32;
        self.state.split_into(id, parts)?;
        self.work.leave_queue(id as u32);
        self.work
            .enter_parts(&self.state, before, id as u32, &rest, lists.as_slice());
        self.ledger.push(Line::Split { id }).unwrap();
        Ok(())
    }

    /// Splits a core that is compound as the store has it: its parts come behind the cores that are there, and
    /// into the queue, and one line behind the ledger's. It takes all memory first; it fails for want of memory
    /// alone, and then nothing has changed. It costs the size of the parts, but for what is left of a long list that
    /// is stable once its edge is settled: that is made of the core itself.
    pub fn split(&mut self, id: u64) -> Result<(), AllocError>
        requires running { self.old.kernel.bottom ≡ false }
        requires compound { is_compound_if (trimmed_at self.old.kernel id) ≡ true }
        ensures step { OnOk result (step self.old.kernel (Split id) ≡ Ok self.new.kernel) }
        ensures ledger { OnOk result (self.new.ledger ≡ self.old.ledger ++ Split id ∷ []) }

        // Only the parts come into the queue.
        ensures queued { OnOk result ((other : ℕ) → 1 ≤ times other self.new.queued
            → (1 ≤ times other self.old.queued) ⊎ (length self.old.kernel.cores < other)) }

        // The queue grows by no more than the cores.
        ensures grows { OnOk result (length self.new.queued + length self.old.kernel.cores
            ≤ length self.old.queued + length self.new.kernel.cores) }
        ensures stays { OnErr result (self.new ≡ self.old) }
    {
        if self.split_at_front(id)? {
            return Ok(());
        }
        let stable = self.state.mark_stable(id);
        self.split_whole(id, stable)
    }
}
