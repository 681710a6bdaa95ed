//! The pending cores of a state come to their variables and into the queue.

ghost use Rattle.std.specs.Prelude.{◌≡◌, ◌+◌, ◌<◌, ◌≤◌, ◌^◌, length, OnOk};
ghost use Rattle.step_kernel.specs.Kernel.{IsKernel};
ghost use Rattle.core_occurrences.specs.Lists.{IsOccurrences};
ghost use Rattle.fixpoint_queue.specs.IdQueue.{IsIds};
ghost use Rattle.fixpoint_queue.specs.Standing.{ArePending};

use crate::worklist::Worklist;
use core_forms::variables;
use std::alloc::{AllocError, Global};
use step_kernel::State;

impl Worklist {
    /// The core behind so many others, where it is pending.
    fn enter_pending(&mut self, alloc: Global, state: &State, before: u32) -> Result<(), AllocError>
        requires kernel { IsKernel state.now }
        requires inside { before < length state.now.cores }
        requires pending { ArePending state.now.cores before self.old.occurs self.old.queue }
        requires vars { length state.now.view ≤ length self.old.occurs.lists }
        requires ids { before + 1 ≤ self.old.occurs.ids }
        requires place { before + 1 < self.old.queue.places }
        ensures pending { OnOk result (ArePending state.now.cores (before + 1) self.new.occurs self.new.queue) }
        ensures lists { OnOk result (length self.new.occurs.lists ≡ length self.old.occurs.lists) }
        ensures ids { OnOk result (self.new.occurs.ids ≡ self.old.occurs.ids) }
        ensures places { OnOk result (self.new.queue.places ≡ self.old.queue.places) }
        ensures marks { OnOk result (self.new.marks ≡ self.old.marks) }
    {
        let id = before + 1;
        if let Some(core) = state.core(id.into()) {
            let vars = variables(alloc, core)?;
            if vars.len() >= 1 << 31 {
                return Err(AllocError);
            }
            self.occurs.grow(0, 0, vars.len() as u32)?;
            self.enter(id, vars.as_slice());
        }
        Ok(())
    }

    /// All of a state.
    pub fn enter_state(&mut self, alloc: Global, state: &State) -> Result<(), AllocError>
        requires kernel { IsKernel state.now }
        requires none { ArePending state.now.cores 0 self.old.occurs self.old.queue }
        requires few { length state.now.cores < 2 ^ 31 }
        requires vars { length state.now.view ≤ length self.old.occurs.lists }
        requires ids { length state.now.cores ≤ self.old.occurs.ids }
        requires places { length state.now.cores < self.old.queue.places }
        ensures pending { OnOk result
            (ArePending state.now.cores (length state.now.cores) self.new.occurs self.new.queue) }
        ensures lists { OnOk result (length self.new.occurs.lists ≡ length self.old.occurs.lists) }
        ensures ids { OnOk result (self.new.occurs.ids ≡ self.old.occurs.ids) }
        ensures places { OnOk result (self.new.queue.places ≡ self.old.queue.places) }
        ensures marks { OnOk result (self.new.marks ≡ self.old.marks) }
    {
        let count = state.ids() as u32;
        for before in 0..count {
            self.enter_pending(alloc, state, before)?;
        }
        Ok(())
    }
}
