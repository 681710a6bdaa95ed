//! Cores that come and go.

ghost use Rattle.std.specs.Prelude.{◌≡◌, ◌≢◌, ◌==◌, ◌+◌, ◌<◌, ◌≤◌, ◌^◌, ℕ, []};
ghost use Rattle.std.specs.Prelude.{length, take, Contains, IfOk, if◌then◌else◌};
ghost use Rattle.std.specs.List.{All};
ghost use Rattle.std.specs.List.Sorted.{IsStrictlyIncreasing};
ghost use Rattle.core_occurrences.specs.Lists.{Occurs, IsOccurrences, added, cores_at};
ghost use Rattle.step_kernel.specs.Kernel.{IsKernel};
ghost use Rattle.fixpoint_queue.specs.IdQueue.{IsIds, IsPut};
ghost use Rattle.fixpoint_queue.specs.Standing.{StandBut, AreAllVars, AreVarsFrom, AreEntered, all_counted};
ghost use Rattle.fixpoint_queue.specs.Handed.{AreComing, HaveCome};

use crate::handing::{Rest, hand_on, hand_over};
use crate::worklist::Worklist;
use bee_list::Sequence;
use core_forms::{Core, variables};
use std::alloc::{AllocError, Global};
use step_kernel::State;

/// The variables of each core, ascending.
pub fn all_variables(alloc: Global, cores: &[Core]) -> Result<Vec<Sequence<u32>>, AllocError>
    ensures { IfOk result (λ lists. AreAllVars lists.items cores.now) }
{
    let mut lists = Vec::with_capacity(alloc, cores.len())?;
    for core in cores {
        lists.push(Sequence::from_vec(variables(alloc, core)?))?;
    }
    Ok(lists)
}

impl Worklist {
    /// Puts a core at its variables, and into the queue.
    pub fn enter(&mut self, id: u32, vars: &[u32])
        requires id { (1 ≤ id) × (id ≤ self.old.occurs.ids) }
        requires increasing { IsStrictlyIncreasing vars.now }
        requires vars { All (λ v. (1 ≤ v) × (v ≤ length self.old.occurs.lists)) vars.now }
        requires fresh { (v : ℕ) → ¬ Occurs self.old.occurs v id }
        requires room { length vars.now ≤ self.old.occurs.room }
        requires place { id < self.old.queue.places }
        ensures occurs { self.new.occurs ≡ added self.old.occurs id vars.now }
        ensures occurrences { IsOccurrences self.new.occurs }
        ensures queue { IsPut self.old.queue id self.new.queue }
        ensures ids { IsIds self.new.queue }
        ensures marks { self.new.marks ≡ self.old.marks }
    {
        self.occurs.add(id, vars);
        self.queue.put(id);
    }

    /// Puts a core at its variables, unless it holds them already, and into the queue.
    fn enter_next(&mut self, held: u32, id: u32, vars: &[u32])
        requires id { (1 ≤ id) × (id ≤ self.old.occurs.ids) }
        requires occurrences { IsOccurrences self.old.occurs }
        requires increasing { id ≢ held → IsStrictlyIncreasing vars.now }
        requires vars { id ≢ held → All (λ v. (1 ≤ v) × (v ≤ length self.old.occurs.lists)) vars.now }
        requires fresh { id ≢ held → (v : ℕ) → ¬ Occurs self.old.occurs v id }
        requires room { length vars.now ≤ self.old.occurs.room }
        requires place { id < self.old.queue.places }
        ensures occurs { self.new.occurs
            ≡ (if id == held then self.old.occurs else added self.old.occurs id vars.now) }
        ensures occurrences { IsOccurrences self.new.occurs }
        ensures queue { IsPut self.old.queue id self.new.queue }
        ensures ids { IsIds self.new.queue }
        ensures marks { self.new.marks ≡ self.old.marks }
    {
        if id == held {
            self.queue.put(id);
        } else {
            self.enter(id, vars);
        }
    }

    /// Puts the cores of a state that come behind so many others at their variables, but for one that holds them
    /// already, and into the queue.
    fn enter_all(&mut self, state: &State, before: u32, held: u32, lists: &[Sequence<u32>])
        requires kernel { IsKernel state.now }
        requires lists { AreVarsFrom state.now.cores before held lists.now }
        requires stand { StandBut held (take before state.now.cores) self.old.occurs }
        requires occurrences { IsOccurrences self.old.occurs }
        requires before { before ≤ length state.now.cores }
        requires vars { length state.now.view ≤ length self.old.occurs.lists }
        requires ids { before + length lists.now ≤ self.old.occurs.ids }
        requires room { all_counted lists.now ≤ self.old.occurs.room }
        requires places { before + length lists.now < self.old.queue.places }
        requires queued { IsIds self.old.queue }
        ensures entered { AreEntered held state.now.cores before (length lists.now)
            self.old.occurs self.new.occurs self.old.queue self.new.queue }
        ensures marks { self.new.marks ≡ self.old.marks }
    {
        let mut id = before;
        for vars in lists {
            id += 1;
            self.enter_next(held, id, vars.as_slice());
        }
    }

    /// Puts the cores of a state that come behind so many others where one of these was at their variables, and into
    /// the queue. The rest takes over the occurrences of the one that has gone, if it can.
    pub fn enter_parts(
        &mut self,
        state: &State,
        before: u32,
        gone: u32,
        rest: &Rest,
        lists: &[Sequence<u32>],
    )
        requires { AreComing state.now before gone rest.now.place 0 rest.now.come.items lists.now
            self.old.occurs self.old.queue }
        ensures come { HaveCome state.now before (length lists.now) self.new.occurs self.old.queue self.new.queue }
        ensures marks { self.new.marks ≡ self.old.marks }
    {
        let held = hand_on(
            &mut self.occurs,
            gone,
            before,
            lists.len(),
            rest.place,
            rest.come.as_slice(),
        );
        self.enter_all(state, before, held, lists);
    }

    /// Puts the cores of a state that come behind so many others where one of these was at their variables, and into
    /// the queue. The rest takes over the occurrences of the one that has gone, and what it has beside them occurs
    /// nowhere; its variables aren't listed.
    pub fn enter_around(
        &mut self,
        state: &State,
        before: u32,
        gone: u32,
        rest: &Rest,
        lists: &[Sequence<u32>],
    )
        requires coming { AreComing state.now before gone rest.now.place (before + rest.now.place + 1)
            rest.now.come.items lists.now self.old.occurs self.old.queue }
        requires inside { rest.now.place < length lists.now }
        requires increasing { IsStrictlyIncreasing rest.now.come.items }
        requires bare { (v : ℕ) → Contains rest.now.come.items v → cores_at self.old.occurs v ≡ [] }
        ensures come { HaveCome state.now before (length lists.now) self.new.occurs self.old.queue self.new.queue }
        ensures marks { self.new.marks ≡ self.old.marks }
    {
        let held = before + rest.place as u32 + 1;
        hand_over(&mut self.occurs, gone, held, rest.come.as_slice());
        self.enter_all(state, before, held, lists);
    }
}
