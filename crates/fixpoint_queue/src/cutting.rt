//! Long lists that are split at their front.

ghost use Rattle.std.specs.Prelude.{◌≡◌, ◌+◌, ◌^◌, ◌<◌, ◌≤◌, ◌∷◌, [], true, false};
ghost use Rattle.std.specs.Prelude.{length, IfOk, OnErr, IsTrue};
ghost use Rattle.step_kernel.specs.SplitAt.{IsCutAt};
ghost use Rattle.fixpoint_queue.specs.Split.{IsSplit, AreCutLists, AreFrom};

use crate::entering::all_variables;
use crate::handing::{Rest, are_bare};
use crate::oracle::Oracle;
use crate::runner::Runner;
use bee_list::Sequence;
use ledger_text::Line;
use part_base::Cut;
use std::alloc::{AllocError, Global};
use std::sync::ledger::Ledger;

/// So many variables from one on.
fn variables_from(alloc: Global, next: u32, count: u32) -> Result<Vec<u32>, AllocError>
    requires { next + count < 2 ^ 32 }
    ensures { IfOk result (λ vars. AreFrom next count vars.items) }
{
    let mut vars = Vec::with_capacity(alloc, count as usize)?;
    for k in 0..count {
        vars.push(next + k)?;
    }
    Ok(vars)
}

/// The variables of the parts of a cut, but for what is left of the list.
fn lists_of_cut(alloc: Global, cut: &Cut) -> Result<Vec<Sequence<u32>>, AllocError>
    ensures { IfOk result (λ lists. AreCutLists lists.items cut.now) }
{
    let mut lists = all_variables(alloc, cut.front.as_slice())?;
    let mut behind = all_variables(alloc, cut.back.as_slice())?;
    lists.push(Sequence::from_vec(Vec::new(alloc)))?;
    lists.append(&mut behind)?;
    Ok(lists)
}

impl<F: Oracle<L>, L: Ledger> Runner<F, L> {
    /// Splits a core as it is cut at its front, and tells whether it did so: not where a fresh variable occurs in a
    /// core already, and then nothing has changed. What is left of the list takes over the occurrences of the core.
    fn split_cut(&mut self, id: u64, cut: Cut) -> Result<bool, AllocError>
        requires running { self.old.kernel.bottom ≡ false }
        requires cut { IsCutAt self.old.kernel id cut }
        ensures split { IfOk result (λ done. IsTrue done → IsSplit self.old self.new id) }
        ensures undone { IfOk result (λ done. done ≡ false → self.new ≡ self.old) }
        ensures stays { OnErr result (self.new ≡ self.old) }
    {
        let alloc = *self.ledger.allocator();
        let lists = lists_of_cut(alloc, &cut)?;
        let come = variables_from(alloc, self.state.vars() + 1, cut.fresh)?;
        self.work
            .make_room(&self.state, cut.fresh, cut.fresh, lists.as_slice())?;
        if !are_bare(&self.work.occurs, come.as_slice()) {
            return Ok(false);
        }
        self.ledger.reserve(1)?;
        let before = self.state.ids() as u32;
        let place = cut.front.len();
        let rest = Rest { place, come };
        self.state.split_cut(id, cut)?;
        self.work.leave_queue(id as u32);
        self.work
            .enter_around(&self.state, before, id as u32, &rest, lists.as_slice());
        self.ledger.push(Line::Split { id }).unwrap();
        Ok(true)
    }

    /// Splits a core at its front, where it is a long list and stable once its edge is settled, and tells whether it
    /// did so. It costs what leaves the list and what comes.
    pub(crate) fn split_at_front(&mut self, id: u64) -> Result<bool, AllocError>
        requires running { self.old.kernel.bottom ≡ false }
        ensures split { IfOk result (λ done. IsTrue done → IsSplit self.old self.new id) }
        ensures undone { IfOk result (λ done. done ≡ false → self.new ≡ self.old) }
        ensures stays { OnErr result (self.new ≡ self.old) }
    {
        match self.state.cut_of(id)? {
            Some(cut) => self.split_cut(id, cut),
            None => Ok(false),
        }
    }
}
