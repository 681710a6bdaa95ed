//! Cores that are encoded.

ghost use Rattle.std.specs.Prelude.{◌≡◌, ◌+◌, ◌-◌, ◌++◌, ◌∷◌, ◌<◌, ◌≤◌, [], true};
ghost use Rattle.std.specs.Prelude.{false, length, slice_set, Ok, Some, OnOk, OnErr};
ghost use Rattle.index_ring.specs.Lists.{without};
ghost use Rattle.core_forms.specs.declared.form.Core.{Core};
ghost use Rattle.core_forms.specs.Basic.{is_basic_of};
ghost use Rattle.ledger_text.specs.declared.line.Line.TheVariants.{Split, Encode};
ghost use Rattle.core_occurrences.specs.Lists.{IsOccurrences, removed};
ghost use Rattle.step_kernel.specs.Kernel.{trimmed_at};
ghost use Rattle.step_kernel.specs.Steps.{step};
ghost use Rattle.fixpoint_queue.specs.IdQueue.{IsIds};

use crate::oracle::Oracle;
use crate::runner::Runner;
use crate::worklist::Worklist;
use ledger_text::Line;
use std::alloc::AllocError;
use std::sync::ledger::Ledger;

impl Worklist {
    /// Takes a core from the queue and from the marks.
    pub fn leave_queue(&mut self, id: u32)
        requires id { 1 ≤ id }
        requires place { id < self.old.queue.places }
        requires mark { id ≤ length self.old.marks }
        ensures occurs { self.new.occurs ≡ self.old.occurs }
        ensures queued { self.new.queue.queued ≡ without id self.old.queue.queued }
        ensures places { self.new.queue.places ≡ self.old.queue.places }
        ensures ids { IsIds self.new.queue }
        ensures marks { self.new.marks ≡ slice_set self.old.marks (id - 1) false }
    {
        self.queue.take(id);
        self.marks.set(id, false);
    }

    /// Takes a core from its variables, from the queue and from the marks.
    fn leave(&mut self, id: u32)
        requires id { (1 ≤ id) × (id ≤ self.old.occurs.ids) }
        requires place { id < self.old.queue.places }
        requires mark { id ≤ length self.old.marks }
        ensures occurs { self.new.occurs ≡ removed self.old.occurs id }
        ensures occurrences { IsOccurrences self.new.occurs }
        ensures queued { self.new.queue.queued ≡ without id self.old.queue.queued }
        ensures places { self.new.queue.places ≡ self.old.queue.places }
        ensures ids { IsIds self.new.queue }
        ensures marks { self.new.marks ≡ slice_set self.old.marks (id - 1) false }
    {
        self.occurs.remove(id);
        self.leave_queue(id);
    }
}

impl<F: Oracle<L>, L: Ledger> Runner<F, L> {
    /// Encodes a core that is basic as the store has it: its clauses come behind those that are there, and one
    /// line behind the ledger's. No core is queued. It fails for want of memory alone, and then nothing has changed.
    pub fn encode(&mut self, id: u64) -> Result<(), AllocError>
        requires running { self.old.kernel.bottom ≡ false }
        requires basic { (core : Core) × (trimmed_at self.old.kernel id ≡ Some core) × (is_basic_of core ≡ true) }
        ensures step { OnOk result (step self.old.kernel (Encode id) ≡ Ok self.new.kernel) }
        ensures ledger { OnOk result (self.new.ledger ≡ self.old.ledger ++ Encode id ∷ []) }
        ensures queued { OnOk result (self.new.queued ≡ without id self.old.queued) }
        ensures stays { OnErr result (self.new ≡ self.old) }
    {
        self.ledger.reserve(1)?;
        let line = Line::Encode { id };
        if self.state.apply(&line).is_err() {
            return Err(AllocError);
        }
        self.work.leave(id as u32);
        self.ledger.push(line).unwrap();
        Ok(())
    }
}
