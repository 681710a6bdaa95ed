//! Room for cores before they come.

ghost use Rattle.std.specs.Prelude.{◌≡◌, ◌+◌, ◌-◌, ◌^◌, ◌<◌, ◌≤◌, length, IfOk, OnOk};
ghost use Rattle.step_kernel.specs.Kernel.{IsKernel};
ghost use Rattle.fixpoint_queue.specs.IdQueue.{IsIds};
ghost use Rattle.core_occurrences.specs.Lists.{IsOccurrences};
ghost use Rattle.fixpoint_queue.specs.Standing.{all_counted};
ghost use Rattle.fixpoint_queue.specs.Wider.{AreWider, IsWider, HasRoom};

use crate::worklist::Worklist;
use bee_list::Sequence;
use core_occurrences::Occurrences;
use std::alloc::AllocError;
use step_kernel::State;

/// More than there is a place for: as if memory were wanting.
const PLACES: u32 = 1 << 31;

/// How many variables there are in all.
fn number_of(lists: &[Sequence<u32>]) -> Result<u32, AllocError>
    ensures { IfOk result (λ number. number ≡ all_counted lists.now) }
{
    let mut number: u32 = 0;
    for vars in lists {
        if vars.len() >= (PLACES - number) as usize {
            return Err(AllocError);
        }
        number += vars.len() as u32;
    }
    Ok(number)
}

/// How many ids there are with so many more.
fn ids_behind(state: &State, more: usize) -> Result<u32, AllocError>
    ensures ids { IfOk result (λ ids. ids ≡ length state.now.cores + more) }
    ensures small { IfOk result (λ ids. ids < 2 ^ 31 - 3) }
{
    let most = u64::from(PLACES) - 4;
    if state.ids() > most || more as u64 > most - state.ids() {
        return Err(AllocError);
    }
    Ok(state.ids() as u32 + more as u32)
}

/// Makes places for so many variables and ids, and room for so many occurrences more, where they are not there.
fn widen(occurs: &mut Occurrences, vars: u32, ids: u32, nodes: u32) -> Result<(), AllocError>
    ensures wider { AreWider occurs.old occurs.new }
    ensures vars { OnOk result (vars ≤ length occurs.new.lists) }
    ensures ids { OnOk result (ids ≤ occurs.new.ids) }
    ensures room { OnOk result (nodes ≤ occurs.new.room) }
{
    let more_vars = vars.saturating_sub(occurs.vars());
    let more_ids = ids.saturating_sub(occurs.ids());
    let more_nodes = nodes.saturating_sub(occurs.room());
    occurs.grow(more_vars, more_ids, more_nodes)
}

impl Worklist {
    /// Makes room for so many fresh variables, for a core with each of the lists of variables, and for some
    /// occurrences more. What is there for other cores is used, so that room is made only where the pending cores
    /// become more.
    pub fn make_room(
        &mut self,
        state: &State,
        fresh: u32,
        more: u32,
        lists: &[Sequence<u32>],
    ) -> Result<(), AllocError>
        requires vars { length state.now.view + fresh < 2 ^ 32 }
        requires occurrences { IsOccurrences self.old.occurs }
        requires queued { IsIds self.old.queue }
        ensures wider { IsWider self.old.occurs self.new.occurs self.old.queue self.new.queue
            self.old.marks self.new.marks }
        ensures room { OnOk result
            (HasRoom state.now fresh more lists.now self.new.occurs self.new.queue self.new.marks) }
    {
        let Some(nodes) = number_of(lists)?.checked_add(more) else {
            return Err(AllocError);
        };
        let ids = ids_behind(state, lists.len())?;
        widen(&mut self.occurs, state.vars() + fresh, ids, nodes)?;
        self.queue.grow_to(ids + 1)?;
        self.marks.grow_to(ids as usize)
    }
}
